//! The scheduling problem that two texts spell.
ghost use Rattle.std.specs.Prelude.{◌≡◌, ◌<◌, ◌≤◌, ◌*◌, ◌+◌, ℕ, List, IfOk, IfErr, length, get_or};
ghost use Rattle.pit_model.specs.Graph.{AreSamePairs};
ghost use Rattle.pit_model.specs.Size.{most_blocks, most_pairs};
ghost use Rattle.minelib_reader.specs.PrecGrammar.{SpellsPrec};
ghost use Rattle.schedule_runs.specs.Limited.{AreLawful, sizes_in};
ghost use Rattle.schedule_runs.specs.ProblemRead.{AreTerms, IsProblemOf, SpellsGraph, SpellsProblem};
ghost use Rattle.schedule_runs.specs.Refusals.{RefusesArcs, RefusesProblem};
ghost use Rattle.scheduling.specs.Limits.{IsTermOf};
ghost use Rattle.schedule_model.specs.Problem.{no_term};
ghost use Rattle.schedule_texts.specs.ProblemText.{lists};

use crate::limits::{check_pairs, checked_sizes};
use crate::refused::Refused;
use crate::terms::{add_use_terms, value_terms};
use faults::Fault;
use mine_graph::Graph;
use minelib_reader::parse_prec_rows;
use schedule_model::Term;
use schedule_texts::{Lists, parse_problem};
use scheduling::{Numbers, Problem, Sizes};
use std::alloc::Global;

/// Returns the graph of the arcs that a text spells for n blocks.
fn read_graph(alloc: Global, n: u32, text: &[u8]) -> Result<Graph, Fault>
    requires { n ≤ most_blocks }
    ensures blocks { IfOk result (λ g. g.blocks ≡ n) }
    ensures graph { IfOk result (λ g. SpellsGraph n text.now g.pairs) }
    ensures refused { IfErr result (RefusesArcs n text.now) }
{
    let rows = parse_prec_rows(alloc, text, n)?;
    Graph::of_rows(alloc, n, rows)
}

/// Returns the terms that are read: those of value, and behind them those of use.
fn terms_of(alloc: Global, sizes: Sizes, read: &Lists) -> Result<Vec<Term>, Refused>
    requires values { length read.now.values.items ≡ read.now.counts.values * 3 }
    requires uses { length read.now.uses.items ≡ read.now.counts.uses * 4 }
    requires sizes { sizes ≡ sizes_in read.now.counts }
    requires lawful { AreLawful (lists read.now.counts read.now.discounts.items read.now.capacities.items read.now.values.items read.now.uses.items read.now.amounts.items) }
    ensures terms { IfOk result (λ v. AreTerms (lists read.now.counts read.now.discounts.items read.now.capacities.items read.now.values.items read.now.uses.items read.now.amounts.items) v.items) }
    ensures lawful { IfOk result (λ v. (k : ℕ) → k < length v.items → IsTermOf sizes.destinations sizes.columns sizes.limits (get_or v.items k no_term)) }
    ensures refused { IfErr result (λ e. e ≡ Refused.NoMemory) }
{
    let mut terms = value_terms(alloc, sizes, &read.values, read.counts.values as usize)?;
    add_use_terms(sizes, &read.uses, read.counts.uses as usize, &mut terms)?;
    Ok(terms)
}

/// Returns the problem of what is read and of a graph.
fn problem_of(alloc: Global, read: Lists, sizes: Sizes, graph: Graph) -> Result<Problem, Refused>
    requires sizes { sizes ≡ sizes_in read.counts }
    requires lawful { AreLawful (lists read.counts read.discounts.items read.capacities.items read.values.items read.uses.items read.amounts.items) }
    requires blocks { graph.blocks ≡ read.counts.blocks }
    requires few_pairs { sizes.periods * (length graph.pairs + graph.blocks) ≤ most_pairs }
    requires discounts { length read.discounts.items ≡ read.counts.periods }
    requires capacities { length read.capacities.items ≡ read.counts.limits * read.counts.periods }
    requires values { length read.values.items ≡ read.counts.values * 3 }
    requires uses { length read.uses.items ≡ read.counts.uses * 4 }
    requires amounts { length read.amounts.items ≡ read.counts.blocks * read.counts.columns }
    ensures pairs { IfOk result (λ p. p.pairs ≡ graph.pairs) }
    ensures is { IfOk result (IsProblemOf (lists read.counts read.discounts.items read.capacities.items read.values.items read.uses.items read.amounts.items)) }
    ensures refused { IfErr result (λ e. e ≡ Refused.NoMemory) }
{
    graph.law();
    let terms = terms_of(alloc, sizes, &read)?;
    let numbers = Numbers {
        amounts: read.amounts,
        terms,
        discounts: read.discounts,
        capacities: read.capacities,
    };
    Ok(Problem::new(graph, sizes, numbers))
}

/// Returns the problem that two texts spell: its own, and that of its precedence.
///
/// # Errors
///
/// The first fault of the problem's text, the first limit that it breaks, the first fault of the text of the precedence, a cycle of the arcs, too many
/// pairs of nodes, or lack of memory.
pub(crate) fn read_problem(
    alloc: Global,
    text: &[u8],
    precedence: &[u8],
) -> Result<Problem, Refused>
    ensures spelled { IfOk result (λ p. SpellsProblem text.now precedence.now p) }
    ensures refused { IfErr result (RefusesProblem text.now precedence.now) }
{
    let read = match parse_problem(alloc, text) {
        Ok(read) => read,
        Err(fault) => return Err(Refused::Problem(fault)),
    };
    let sizes = match checked_sizes(&read) {
        Ok(sizes) => sizes,
        Err(limit) => return Err(Refused::Beyond(limit)),
    };
    let graph = match read_graph(alloc, read.counts.blocks as u32, precedence) {
        Ok(graph) => graph,
        Err(fault) => return Err(Refused::Precedence(fault)),
    };
    if let Err(limit) = check_pairs(graph.n(), graph.arcs(), sizes.periods) {
        return Err(Refused::Beyond(limit));
    }
    problem_of(alloc, read, sizes, graph)
}
