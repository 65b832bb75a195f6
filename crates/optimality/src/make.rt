//! The certificate of a tree. This file alone of the crate knows the tree: what checks a certificate knows the graph alone.
ghost use Rattle.std.specs.Prelude.{◌≡◌, IfOk, IfErr};
ghost use Rattle.faults.specs.Refused.{no_memory};
ghost use Rattle.optimality.specs.Certificate.{AnswersTree};

use crate::pit_with_flow::Certificate;
use faults::Fault;
use norm_tree::NormTree;
use std::alloc::Global;

/// Makes the certificate of a tree without a merger arc, its strong blocks and its flow; None exactly where a merger arc is
/// left. (Hochbaum 2008; Picard 1976)
///
/// # Errors
/// `NoMemory`.
pub fn of_tree(alloc: Global, tree: &NormTree) -> Result<Option<Certificate>, Fault>
    ensures answer { IfOk result (AnswersTree tree.now) }
    ensures refused { IfErr result (λ e. e ≡ no_memory) }
{
    tree.law();
    if tree.find_merger().is_some() {
        return Ok(None);
    }
    let pit = tree.pit_in(alloc)?;
    let flow = tree.flow_in(alloc)?;
    Ok(Some(Certificate { pit, flow }))
}
