//! What a run is at.

/// What a run is at, in the order of a run.
#[derive(Clone, Copy, PartialEq, Eq, Debug)]
pub enum Phase {
    Opening,
    Reading,
    /// The mergers of a plan for workers are looked for.
    Planning,
    Solving,
    Writing,
    Ended,
}

impl Phase {
    /// All phases, in the order of a run.
    pub const ALL: [Phase; 6] = [
        Phase::Opening,
        Phase::Reading,
        Phase::Planning,
        Phase::Solving,
        Phase::Writing,
        Phase::Ended,
    ];

    /// Its place in the order of a run, from 0.
    pub(crate) fn place(self) -> u32 {
        match self {
            Phase::Opening => 0,
            Phase::Reading => 1,
            Phase::Planning => 2,
            Phase::Solving => 3,
            Phase::Writing => 4,
            Phase::Ended => 5,
        }
    }
}
