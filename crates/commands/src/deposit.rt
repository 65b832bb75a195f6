//! The deposit of a run of `shells`: a table of blocks and the precedence pairs, read in this order, and two columns of the table.
ghost use Rattle.std.specs.Prelude.{◌≡◌, ◌<◌, ◌^◌, length, IfOk, IfErr};
ghost use Rattle.std.specs.Io.KnownBytes.{Keeps};
ghost use Rattle.commands.specs.Solve.{given_by};
ghost use Rattle.commands.specs.Deposit.{HoldsDeposit, RefusesDeposit};

use counters::Phase;
use faults::Fault;
use mine_graph::Graph;
use minelib_reader::{InBytes, read_blocks, read_prec_rows};
use shells::{Columns, FromTable};
use std::alloc::Global;
use std::sync::Arc;

/// The revenue and cost of each block, and the precedence graph.
#[derive(Drop)]
pub struct Deposit {
    pub columns: Columns,
    pub graph: Arc<Graph>,
}

/// Reads the deposit of a block model and a precedence file, with the columns of revenue and cost.
///
/// # Errors
///
/// The first fault of the two files, then a cycle, then that of the columns.
#[tactic(auto, using(crate::proofs::Keeping::still_kept, crate::proofs::Keeping::still_kept_if_any))]
pub fn read_deposit<B: InBytes, P: InBytes>(
    alloc: Global,
    blocks: &mut B,
    prec: &mut P,
    revenue: u32,
    cost: u32,
) -> Result<Deposit, Fault>
    requires blocks_countable { (B.progress blocks.old).failures < 2 ^ 63 }
    requires prec_countable { (P.progress prec.old).failures < 2 ^ 63 }
    ensures deposit { IfOk result (λ d. HoldsDeposit
        (given_by B.InBytes blocks.old blocks.new)
        (given_by P.InBytes prec.old prec.new)
        revenue cost d.columns d.graph.value) }
    ensures rows { IfOk result (λ d. length d.columns.revenues ≡ d.graph.value.blocks) }
    ensures refused { IfErr result (λ e. RefusesDeposit e.refusal e
        (given_by B.InBytes blocks.old blocks.new)
        (given_by P.InBytes prec.old prec.new)
        revenue cost) }
    ensures blocks_kept { Keeps (B.known_text blocks.old) (B.known_text blocks.new) }
    ensures prec_kept { Keeps (P.known_text prec.old) (P.known_text prec.new) }
{
    blocks.counters().enter(Phase::Reading);
    let table = read_blocks(alloc, blocks)?;
    let n = table.len();
    let needs = read_prec_rows(alloc, prec, n)?;
    let graph = Graph::of_rows(alloc, n, needs)?;
    let counters = blocks.counters();
    counters.enter(Phase::Solving);
    let columns = Columns::of_with_counters(alloc, &table, revenue, cost, counters)?;
    let shared = Arc::new(alloc, graph)?;
    Ok(Deposit {
        columns,
        graph: shared,
    })
}
