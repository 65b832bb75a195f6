//! The excess of each block under a flow, by plain sums: its value, then each amount taken off one block and added to
//! another. `check` asks for them; nothing here knows the tree.
ghost use Rattle.std.specs.Prelude.{◌≡◌, ◌<◌, ℕ, pos, ◌*◌, ◌^◌, neg_ℤ, ◌+ℤ◌, ◌-ℤ◌, ◌==◌, int_lt, length, get_or, IfOk};
ghost use Rattle.pit_model.specs.Sum.{when};
ghost use Rattle.pit_model.specs.Mine.{arcs, value};
ghost use Rattle.pit_model.specs.Limits.{Between};
ghost use Rattle.optimality.specs.Check.{amount, AreAmounts, AreExcesses, AreValues};

use mine_graph::{Graph, Instance};
use std::alloc::{AllocError, Global};

/// Whether an arc has flow.
pub fn has_flow(flow: &[i128], arc: u32) -> bool
    requires { arc < length flow.now }
    ensures { result ≡ int_lt (pos 0) (amount flow.now arc) }
{
    flow[arc as usize] > 0
}

/// Takes the amount of an arc off a block.
fn take_off(flow: &[i128], k: usize, excesses: &mut [i128], block: usize)
    requires arc { k < length flow.now }
    requires block { block < length excesses.old }
    requires amount { Between (pos 0) (amount flow.now k) (pos (10 ^ 30)) }
    requires small { Between (neg_ℤ (pos (10 ^ 38))) (get_or excesses.old block (pos 0)) (pos (10 ^ 38)) }
    ensures { (u : ℕ) → get_or excesses.new u (pos 0) ≡ get_or excesses.old u (pos 0) -ℤ when (block == u) (amount flow.now k) }
{
    excesses[block] -= flow[k];
}

/// Adds the amount of an arc to a block.
fn add_to(flow: &[i128], k: usize, excesses: &mut [i128], block: usize)
    requires arc { k < length flow.now }
    requires block { block < length excesses.old }
    requires amount { Between (pos 0) (amount flow.now k) (pos (10 ^ 30)) }
    requires small { Between (neg_ℤ (pos (11 * 10 ^ 37))) (get_or excesses.old block (pos 0)) (pos (10 ^ 38)) }
    ensures { (u : ℕ) → get_or excesses.new u (pos 0) ≡ get_or excesses.old u (pos 0) +ℤ when (block == u) (amount flow.now k) }
{
    excesses[block] += flow[k];
}

/// Takes the flow off the blocks that it leaves, and adds it to those at which it arrives. To find the blocks of a pair its rows are
/// halved, so pairs without flow, which most are, are passed over.
fn add_flow(mine: &Instance, flow: &[i128], excesses: &mut [i128])
    requires counted { length flow.now ≡ arcs mine.now }
    requires amounts { AreAmounts flow.now }
    requires blocks { length excesses.old ≡ mine.now.blocks }
    requires values { AreValues mine.now excesses.old }
    ensures { AreExcesses mine.now flow.now excesses.new }
{
    mine.law();
    let graph: &Graph = mine.graph();
    for k in 0..graph.arcs() {
        if has_flow(flow, k) {
            let (from, to) = graph.arc(k);
            take_off(flow, k as usize, excesses, from as usize);
            add_to(flow, k as usize, excesses, to as usize);
        }
    }
}

/// The excess of each block: its value, and what arrives less what leaves.
pub fn excesses_of(alloc: Global, mine: &Instance, flow: &[i128]) -> Result<Vec<i128>, AllocError>
    requires counted { length flow.now ≡ arcs mine.now }
    requires amounts { AreAmounts flow.now }
    ensures count { IfOk result (λ v. length v.items ≡ mine.now.blocks) }
    ensures excesses { IfOk result (λ v. AreExcesses mine.now flow.now v.items) }
{
    mine.law();
    let mut excesses = mine.values(alloc)?;
    add_flow(mine, flow, &mut excesses);
    Ok(excesses)
}
