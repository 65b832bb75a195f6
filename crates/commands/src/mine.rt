//! The mine of a run: opens its files, reads them in order, and builds the graph and the fixed blocks.
ghost use Rattle.std.specs.Prelude.{◌<◌, ◌≤◌, ◌^◌, IfOk, IfErr, ◌≡◌, is_some, option_copied};
ghost use Rattle.pit_model.specs.Fixed.{AreFixable, graph_of_mine};
ghost use Rattle.mine_graph.specs.FixedBlocks.{IsFixedOf, lists_of};
ghost use Rattle.minelib_reader.specs.Fixed.{fixed_lists};
ghost use Rattle.commands.specs.Kept.{KeepsIfAny, KeepsTexts};
ghost use Rattle.commands.specs.Solve.{optional_reading, files_of, mine_files, fixed_instance_of, GaveFixed, HoldsMine, MayRead, MayReadIfAny, RefusesFixedText, RefusesMine};
ghost use Rattle.commands.specs.Opened.{known_if_any, texts_of, LacksFixed, LacksMine, OpensFixed, OpensMine};

use crate::inputs::{InputFiles, MineStreams};
use crate::options::MineNames;
use counters::Phase;
use faults::Fault;
use mine_graph::{Fixed, Graph, Instance};
use minelib_reader::{InBytes, read_fixed, read_prec_rows, read_upit};
use std::alloc::Global;
use std::io::Read;
use std::sync::Arc;

/// The streams or readers of a mine's files, in reading order; that of the fixed blocks is optional.
#[derive(Drop)]
pub struct MineFiles<M, P, F> {
    pub model: M,
    pub prec: P,
    pub fixed: Option<F>,
}

/// A mine with its fixed blocks.
#[derive(Drop)]
pub struct FixedMine {
    pub mine: Instance,
    pub fixed: Fixed,
}

/// Returns the forced and the barred blocks that the file of fixed blocks names; none if there is no such file.
#[tactic(auto, using(crate::proofs::Keeping::still_kept, crate::proofs::Keeping::still_kept_if_any))]
fn read_lists<F: InBytes>(
    alloc: Global,
    fixed: &mut Option<F>,
    n: u32,
) -> Result<(Vec<u32>, Vec<u32>), Fault>
    requires { MayReadIfAny F.progress fixed.old }
    ensures fixable { IfOk result (λ v. AreFixable n (fixed_lists v.0.items v.1.items)) }
    ensures given { IfOk result (λ v. GaveFixed (optional_reading F.progress F.IsAtEnd fixed.old fixed.new) n (fixed_lists v.0.items v.1.items)) }
    ensures refused { IfErr result (λ e. RefusesFixedText e.refusal e n (optional_reading F.progress F.IsAtEnd fixed.old fixed.new)) }
    ensures kept { KeepsIfAny F.known_text fixed.old fixed.new }
{
    match fixed {
        None => Ok((Vec::new(alloc), Vec::new(alloc))),
        Some(reader) => read_fixed(alloc, reader, n),
    }
}

/// Reads the mine of a model, a precedence file and the file of fixed blocks, if there is one.
///
/// # Errors
///
/// The first fault of the files, then a cycle of the arcs (14), then a clash of the fixed blocks (21).
#[tactic(auto, using(crate::proofs::Keeping::still_kept, crate::proofs::Keeping::still_kept_if_any))]
pub(crate) fn read_mine<M: InBytes, P: InBytes, F: InBytes>(
    alloc: Global,
    model: &mut M,
    prec: &mut P,
    fixed: &mut Option<F>,
) -> Result<FixedMine, Fault>
    requires { MayRead M.progress P.progress F.progress (mine_files model.old prec.old fixed.old) }
    ensures mine { IfOk result (λ t. HoldsMine (files_of M.InBytes P.InBytes F.InBytes (mine_files model.old prec.old fixed.old) (mine_files model.new prec.new fixed.new)) (fixed_instance_of t)) }
    ensures fixed { IfOk result (λ t. IsFixedOf (graph_of_mine t.mine) t.fixed) }
    ensures refused { IfErr result (λ e. RefusesMine e.refusal e (files_of M.InBytes P.InBytes F.InBytes (mine_files model.old prec.old fixed.old) (mine_files model.new prec.new fixed.new))) }
    ensures kept { KeepsTexts M.known_text P.known_text F.known_text (mine_files model.old prec.old fixed.old) (mine_files model.new prec.new fixed.new) }
{
    let counters = model.counters();
    counters.enter(Phase::Reading);
    let model = read_upit(alloc, model)?;
    let needs = read_prec_rows(alloc, prec, model.n)?;
    let (forced, barred) = read_lists(alloc, fixed, model.n)?;
    let graph = Graph::of_rows(alloc, model.n, needs)?;
    counters.enter(Phase::Solving);
    let mine = Instance::with_counters(Arc::new(alloc, graph)?, model.values, counters);
    mine.law();
    let fixed = Fixed::new(alloc, mine.graph(), forced, barred)?;
    let shared = mine.share_values(alloc)?;
    Ok(FixedMine {
        mine: shared,
        fixed,
    })
}

/// Opens the file of fixed blocks, if there is one.
fn open_fixed_if_any<F: InputFiles>(
    files: &mut F,
    path: Option<&str>,
) -> Result<Option<F::Fixed>, Fault>
    ensures opened { IfOk result (λ r. OpensFixed F.InputFiles (option_copied path.entry) (known_if_any (⟦<F::Fixed as Read>⟧.remaining) r) files.old files.new) }
    ensures named { IfOk result (λ r. is_some r ≡ is_some (option_copied path.entry)) }
    ensures lacked { IfErr result (λ e. LacksFixed F.InputFiles (option_copied path.entry) e files.old files.new) }
{
    match path {
        None => Ok(None),
        Some(path) => Ok(Some(files.open_fixed(path)?)),
    }
}

/// Opens the model, the precedence file and the file of fixed blocks, in this order.
pub(crate) fn open_mine<F: InputFiles>(
    files: &mut F,
    names: &MineNames<'_>,
) -> Result<MineStreams<F>, Fault>
    ensures opened { IfOk result (λ r. OpensMine F.InputFiles names.now (texts_of (⟦<F::Model as Read>⟧.remaining) (⟦<F::Prec as Read>⟧.remaining) (⟦<F::Fixed as Read>⟧.remaining) r) files.old files.new) }
    ensures named { IfOk result (λ r. is_some r.fixed ≡ is_some (option_copied names.now.fixed)) }
    ensures lacked { IfErr result (λ e. LacksMine F.InputFiles names.now e files.old files.new) }
{
    let model = files.open_model(names.model)?;
    let prec = files.open_prec(names.prec)?;
    let fixed = open_fixed_if_any(files, names.fixed)?;
    Ok(MineFiles { model, prec, fixed })
}
