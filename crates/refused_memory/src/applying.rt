//! The driver decides the arcs in turn.
use crate::mine::ARCS;
use crate::trial::{WitnessedTrial, Workplace};
use crate::witness::Witness;
use faults::Fault;
use std::sync::Wait;
use tree_lock::{Holder, LockId, Verdict};

/// Each arc is decided; where memory was refused to that nothing has changed, and the arc is decided again.
pub struct Applying;

/// Decides the arc, where there is one of this number.
fn apply<S: LockId, R: Wait>(rt: &R, holder: &mut Holder<S>, arc: u32) -> Result<Verdict, Fault> {
    if arc < holder.tree().instance().graph().arcs() {
        holder.apply(rt, arc)
    } else {
        Ok(Verdict::Spent)
    }
}

/// Decides the arc that follows after `count` mergers.
fn apply_next<S: LockId, R: Wait>(
    rt: &R,
    holder: &mut Holder<S>,
    witness: &mut Witness<'_, S>,
    count: usize,
    arc: u32,
) -> Result<(), Fault> {
    let verdict = match apply(rt, holder, arc) {
        Ok(verdict) => verdict,
        Err(_) => {
            witness.seen.refused = witness.seen.refused.saturating_add(1);
            witness.compare(holder, count)?;
            apply(rt, holder, arc)?
        }
    };
    let applied = verdict == Verdict::Applied;
    witness.expect("each arc is a merger arc at its turn", applied);
    witness.compare(holder, count.saturating_add(1))
}

impl WitnessedTrial for Applying {
    fn at<S: LockId, R: Wait>(
        &self,
        rt: &R,
        _place: &mut Workplace<S>,
        holder: &mut Holder<S>,
        witness: &mut Witness<'_, S>,
    ) -> Result<(), Fault> {
        for count in 0..ARCS.len() {
            apply_next(rt, holder, witness, count, ARCS[count])?;
        }
        Ok(())
    }
}
