//! A scheduling problem in memory.
ghost use Rattle.std.specs.Prelude.{◌≡◌, ◌<◌, length};
ghost use Rattle.schedule_model.specs.Problem.{amount_in, discount, term_at};
ghost use Rattle.scheduling.specs.Limits.{IsBoundedProblem};
ghost use Rattle.scheduling.specs.Parts.{problem_of};

use crate::parts::{Numbers, Sizes};
use mine_graph::Graph;
use schedule_model::Term;
use std::marker::Model;

/// Blocks with precedence, amounts in columns, terms of destinations, discount factors and capacities.
#[derive(Drop)]
pub struct Problem {
    graph: Graph,
    sizes: Sizes,
    numbers: Numbers,
}

impl Model for Problem {
    ghost use Rattle.schedule_model.specs.Problem.{Problem};
    ghost use Rattle.scheduling.specs.Limits.{IsBoundedProblem};
    ghost use Rattle.scheduling.specs.Parts.{problem_of};

    ghost Value = { Problem };

    ghost view = { λ p. problem_of p.graph p.sizes p.numbers };

    ghost invariant = { λ p. IsBoundedProblem (problem_of p.graph p.sizes p.numbers) };
}

impl Problem {
    /// Returns the problem of these parts. It takes no memory.
    pub fn new(graph: Graph, sizes: Sizes, numbers: Numbers) -> Problem
        requires { IsBoundedProblem (problem_of graph sizes numbers) }
        ensures { result ≡ problem_of graph sizes numbers }
    {
        Problem {
            graph,
            sizes,
            numbers,
        }
    }

    /// What is true of each problem.
    pub fn law(&self)
        ensures { IsBoundedProblem self.now }
    {
        let _ = &self.numbers;
    }

    /// Returns the precedence of blocks.
    pub fn graph(&self) -> &Graph
        ensures blocks { result.now.blocks ≡ self.now.blocks }
        ensures pairs { result.now.pairs ≡ self.now.pairs }
    {
        &self.graph
    }

    /// Returns the number of blocks.
    pub fn blocks(&self) -> u32
        ensures { result ≡ self.now.blocks }
    {
        self.graph.n()
    }

    /// Returns the number of periods.
    pub fn periods(&self) -> u32
        ensures { result ≡ self.now.periods }
    {
        self.sizes.periods
    }

    /// Returns the number of destinations.
    pub fn destinations(&self) -> u32
        ensures { result ≡ self.now.destinations }
    {
        self.sizes.destinations
    }

    /// Returns the number of limits.
    pub fn limits(&self) -> u32
        ensures { result ≡ self.now.limits }
    {
        self.sizes.limits
    }

    /// Returns the number of terms of all destinations.
    pub fn terms(&self) -> usize
        ensures { result ≡ length self.now.terms }
    {
        self.numbers.terms.len()
    }

    /// Returns the term with a number.
    pub fn term(&self, k: usize) -> Term
        requires { k < length self.now.terms }
        ensures { result ≡ term_at self.now k }
    {
        self.numbers.terms[k]
    }

    /// Returns the discount factor of each period.
    pub fn discounts(&self) -> &[i64]
        ensures { result.now ≡ self.now.discounts }
    {
        &self.numbers.discounts
    }

    /// Returns the capacities of each limit, limit by limit.
    pub fn capacities(&self) -> &[i64]
        ensures { result.now ≡ self.now.capacities }
    {
        &self.numbers.capacities
    }

    /// Returns the amount in a column of a block.
    pub fn amount(&self, b: u32, column: u32) -> i64
        requires block { b < self.now.blocks }
        requires column { column < self.now.columns }
        ensures { result ≡ amount_in self.now b column }
    {
        self.law();
        self.numbers.amounts[b as usize * self.sizes.columns as usize + column as usize]
    }
}
