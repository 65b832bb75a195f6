//! The reduced mine: the blocks that fixed blocks leave open, as an instance, and the lift of its pit and certificate to the whole
//! mine.
ghost use Rattle.std.specs.Prelude.{◌≡◌, ◌<◌, ◌≤◌, ◌^◌, ℕ, Bool, true, false, length, get_or, IfOk, IfErr};
ghost use Rattle.faults.specs.Refused.{no_memory};
ghost use Rattle.pit_model.specs.Fixed.{IsFixedRest, fixed_of, graph_of_mine};
ghost use Rattle.pit_model.specs.Mine.{arcs, members};
ghost use Rattle.pit_model.specs.Size.{most_blocks};
ghost use Rattle.optimality.specs.Certificate.{IsCertificateOf, IsFixedCertificateOf};
ghost use Rattle.optimality.specs.Check.{amount, has, open_in};
ghost use Rattle.mine_graph.specs.FixedBlocks.{IsFixedOf, forced_closure, barred_closure};
ghost use Rattle.merging.specs.Reduced.{IsRestIn, ListsJoined};

use crate::lift::{carry_flow, mark_pit};
use crate::parts::values_at;
use faults::Fault;
use mine_graph::{Fixed, Graph, Instance, marked_numbers};
use optimality::Certificate;
use std::alloc::{AllocError, Global};
use std::sync::Arc;

/// The open blocks of a mine, rising, and the instance on them, in which block i is `blocks[i]`.
#[derive(Drop)]
pub struct ReducedMine {
    pub blocks: Vec<u32>,
    pub mine: Instance,
}

/// Returns for each block whether it is in the forced closure.
fn dug_marks(alloc: Global, fixed: &Fixed, n: u32) -> Result<Vec<bool>, AllocError>
    ensures count { IfOk result (λ v. length v.items ≡ n) }
    ensures marks { IfOk result (λ v. (u : ℕ) → u < n → has v.items u ≡ forced_closure fixed.now u) }
{
    (0..n).map(|u| fixed.must_dig(u)).collect(alloc)
}

/// Returns the forced closure joined with the blocks found in the reduced mine, by their numbers in the whole mine, rising.
///
/// # Errors
///
/// If memory runs out.
pub fn join_pit(
    alloc: Global,
    n: u32,
    fixed: &Fixed,
    blocks: &[u32],
    found: &[u32],
) -> Result<Vec<u32>, Fault>
    requires blocks { blocks.now ≡ members n (open_in fixed.now) }
    requires apart { (u : ℕ) → barred_closure fixed.now u ≡ true → forced_closure fixed.now u ≡ false }
    requires found { (i : ℕ) → i < length found.now → get_or found.now i 0 < length blocks.now }
    ensures joined { IfOk result (λ list. (set : ℕ → Bool) → found.now ≡ members (length blocks.now) set → ListsJoined n fixed.now blocks.now set list.items) }
    ensures refused { IfErr result (λ e. e ≡ no_memory) }
{
    let mut marks = dug_marks(alloc, fixed, n)?;
    mark_pit(blocks, found, &mut marks);
    Ok(marked_numbers(alloc, &marks)?)
}

impl ReducedMine {
    /// Returns the open blocks of a mine as an instance.
    ///
    /// # Errors
    ///
    /// If memory runs out.
    pub fn of(alloc: Global, mine: &Instance, fixed: &Fixed) -> Result<ReducedMine, Fault>
        requires { IsFixedOf (graph_of_mine mine.now) fixed.now }
        ensures rest { IfOk result (IsRestIn mine.now fixed.now) }
        ensures refused { IfErr result (λ e. e ≡ no_memory) }
    {
        mine.law();
        let part = fixed.rest(mine.graph())?;
        part.graph.law();
        let values = values_at(alloc, mine, &part.blocks)?;
        let counters = mine.counters().share();
        let rest = Instance::with_counters(Arc::new(alloc, part.graph)?, values, counters);
        let mine = rest.share_values(alloc)?;
        Ok(ReducedMine {
            blocks: part.blocks,
            mine,
        })
    }

    /// Lifts a certificate of the reduced mine to the whole mine: adds the forced closure, and no flow on an arc of a block that is
    /// not open.
    ///
    /// # Errors
    ///
    /// If memory runs out.
    pub fn certificate(
        &self,
        alloc: Global,
        mine: &Instance,
        fixed: &Fixed,
        found: &Certificate,
    ) -> Result<Certificate, Fault>
        requires fixed { IsFixedOf (graph_of_mine mine.now) fixed.now }
        requires rest { IsRestIn mine.now fixed.now self.now }
        requires found { IsCertificateOf self.now.mine found.now }
        ensures certificate { IfOk result (IsFixedCertificateOf mine.now (fixed_of fixed.now.lists)) }
        ensures refused { IfErr result (λ e. e ≡ no_memory) }
    {
        mine.law();
        self.mine.law();
        let whole: &Graph = mine.graph();
        let part: &Graph = self.mine.graph();
        let mut flow = vec![in alloc; 0i128; whole.arcs() as usize]?;
        carry_flow(whole, &self.blocks, part, &found.flow, &mut flow);
        let pit = join_pit(alloc, whole.n(), fixed, &self.blocks, &found.pit)?;
        Ok(Certificate { pit, flow })
    }
}
