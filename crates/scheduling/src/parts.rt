//! The parts of a scheduling problem, beside its graph.
use schedule_model::Term;

/// How many periods, destinations, columns of amounts, and limits there are.
#[derive(Clone, Copy, Debug, PartialEq, Eq)]
pub struct Sizes {
    pub periods: u32,
    pub destinations: u32,
    pub columns: u32,
    pub limits: u32,
}

/// The numbers of a problem, in millionths: amounts block by block, and capacities limit by limit.
#[derive(Drop)]
pub struct Numbers {
    pub amounts: Vec<i64>,
    pub terms: Vec<Term>,
    pub discounts: Vec<i64>,
    pub capacities: Vec<i64>,
}
