//! Whether blocks are mined whole.
ghost use Rattle.std.specs.Prelude.{◌≡◌, ◌<◌, IsTrue, false};
ghost use Rattle.schedule_model.specs.Schedule.{whole_block};
ghost use Rattle.schedule_model.specs.WholeBlocks.{AreWholeBlocks, AreWholeIn, IsWholeOrLeft};
ghost use Rattle.scheduling.specs.Checked.{AreShares};

use crate::order::{WHOLE, mined};
use crate::problem::Problem;

/// Returns whether a block is mined whole in a period, or not in it.
fn is_whole_or_left(problem: &Problem, shares: &[u32], period: u32, block: u32) -> bool
    requires shares { AreShares problem.now shares.now }
    requires period { period < problem.now.periods }
    requires block { block < problem.now.blocks }
    ensures yes { IsTrue result → IsWholeOrLeft whole_block problem.now shares.now block period }
    ensures no { result ≡ false → IsWholeOrLeft whole_block problem.now shares.now block period → ⊥ }
{
    let share = mined(problem, shares, period, block);
    share == 0 || share == WHOLE
}

/// Returns whether each block is mined whole in a period, or not in it.
fn are_whole_in(problem: &Problem, shares: &[u32], period: u32) -> bool
    requires shares { AreShares problem.now shares.now }
    requires period { period < problem.now.periods }
    ensures yes { IsTrue result → AreWholeIn whole_block problem.now shares.now period }
    ensures no { result ≡ false → AreWholeIn whole_block problem.now shares.now period → ⊥ }
{
    problem.law();
    for block in 0..problem.blocks() {
        if !is_whole_or_left(problem, shares, period, block) {
            return false;
        }
    }
    true
}

/// Returns whether each block is mined whole in one period, or never, in millionths.
pub fn are_blocks_whole(problem: &Problem, shares: &[u32]) -> bool
    requires { AreShares problem.now shares.now }
    ensures yes { IsTrue result → AreWholeBlocks whole_block problem.now shares.now }
    ensures no { result ≡ false → AreWholeBlocks whole_block problem.now shares.now → ⊥ }
{
    problem.law();
    for period in 0..problem.periods() {
        if !are_whole_in(problem, shares, period) {
            return false;
        }
    }
    true
}
