//! The input of a computation of shells.
ghost use Rattle.std.specs.Prelude.{◌≡◌, ◌<◌, ◌≤◌, ◌-◌, length};
ghost use Rattle.pit_model.specs.Shells.{factor_of};

use crate::columns::Columns;
use crate::factors::Factors;
use mine_graph::Graph;
use pit_model::Direction;
use std::sync::Arc;

/// A mine with the revenues and costs of its blocks, and the factors and the direction of the wanted shells.
#[derive(Clone, Copy)]
pub struct ShellPlan<'a> {
    pub columns: &'a Columns,
    pub graph: &'a Arc<Graph>,
    pub factors: &'a Factors,
    pub direction: Direction,
}

impl ShellPlan<'_> {
    /// Returns the greatest factor, in per mille.
    pub fn last_factor(&self) -> u32
        requires { 0 < length self.now.factors.now }
        ensures last { result ≡ factor_of self.now.factors.now (length self.now.factors.now - 1) }
        ensures limit { result ≤ 100000 }
    {
        self.factors.law();
        self.factors.get(self.factors.len() - 1)
    }
}
