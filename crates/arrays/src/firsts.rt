//! For each block the number of the first pit of a list that holds it.
ghost use Rattle.std.specs.Prelude.{◌≡◌, ◌≢◌, ◌<◌, ◌≤◌, ℕ, length, get_or};
ghost use Rattle.std.specs.List.{All, Contains};
ghost use Rattle.arrays.specs.Firsts.{AreFirsts, AreTaken};

use pit_model::Shell;

/// Gives a number to the blocks of a pit that have none yet, that is, whose number is `none`.
fn take(pit: &[u32], number: u32, none: u32, firsts: &mut [u32])
    requires below { All (λ u. u < length firsts.old) pit.now }
    requires another { number ≢ none }
    ensures { AreTaken pit.now number none (length pit.now) firsts.old firsts.new }
{
    for &block in pit {
        if firsts[block as usize] == none {
            firsts[block as usize] = number;
        }
    }
}

/// Writes for each block the number, from 0, of the first shell that holds it, and how many shells there are where none does.
pub fn write_firsts(shells: &[Shell], firsts: &mut [u32])
    requires few { length shells.now ≤ 1000 }
    requires below { All (λ (shell : Shell). All (λ u. u < length firsts.old) shell.pit.items) shells.now }
    ensures { AreFirsts shells.now (length firsts.old) firsts.new (length shells.now) }
{
    let none = shells.len() as u32;
    for first in firsts.iter_mut() {
        *first = none;
    }
    for k in 0..shells.len() {
        take(&shells[k].pit, k as u32, none, firsts);
    }
}
