//! The revenue and the cost of each block.
ghost use Rattle.std.specs.Prelude.{◌≡◌, ◌<◌, ◌≤◌, ◌^◌, pos, neg_ℤ, ◌≤ℤ◌, map, length, get_or, IfOk};
ghost use Rattle.std.specs.List.{All};
ghost use Rattle.pit_model.specs.Deposit.{priced};
ghost use Rattle.pit_model.specs.Sum.{total};
ghost use Rattle.nesting.specs.Outermost.{amounts_of};
ghost use Rattle.nesting.specs.Prices.{price_of, ArePrices};
ghost use Rattle.pit_model.specs.Size.{most_blocks};

use counters::Counters;
use std::alloc::{AllocError, Global};
use std::marker::Model;

/// The revenue and the cost of each block in millionths, none negative.
#[derive(Drop)]
pub struct Columns {
    revenues: Vec<i128>,
    costs: Vec<i128>,
    counters: Counters,
}

impl Model for Columns {
    ghost use Rattle.nesting.specs.Prices.{Prices, ArePrices};

    ghost Value = { Prices };

    ghost view = { λ c. record { revenues = c.revenues.items; costs = c.costs.items } };

    ghost invariant = { λ c. ArePrices c.revenues.items c.costs.items };
}

/// Returns the value of a block with this revenue and cost at a factor.
fn price(factor: u32, revenue: i128, cost: i128) -> i128
    requires factor { factor ≤ 100000 }
    requires revenue { (pos 0 ≤ℤ revenue) × (revenue ≤ℤ pos (10 ^ 18)) }
    requires cost { (pos 0 ≤ℤ cost) × (cost ≤ℤ pos (10 ^ 18)) }
    ensures value { result ≡ priced factor revenue cost }
    ensures small { (neg_ℤ (pos (10 ^ 23)) ≤ℤ result) × (result ≤ℤ pos (10 ^ 23)) }
{
    i128::from(factor) * revenue - 1000 * cost
}

/// The amounts of some blocks.
fn amounts_at(alloc: Global, amounts: &[i128], blocks: &[u32]) -> Result<Vec<i128>, AllocError>
    requires { All (λ u. u < length amounts.now) blocks.now }
    ensures { IfOk result (λ v. v.items ≡ amounts_of amounts.now blocks.now) }
{
    let mut list = Vec::with_capacity(alloc, blocks.len())?;
    for &u in blocks {
        list.push(amounts[u as usize])?;
    }
    Ok(list)
}

impl Columns {
    /// Returns columns of these revenues and costs, in millionths.
    pub fn new(revenues: Vec<i128>, costs: Vec<i128>) -> Columns
        requires { ArePrices revenues.items costs.items }
        ensures revenues { result.revenues ≡ revenues.items }
        ensures costs { result.costs ≡ costs.items }
    {
        Columns::with_counters(revenues, costs, Counters::none())
    }

    /// Returns columns of these revenues and costs, with counters for the instances that are made of them.
    pub fn with_counters(revenues: Vec<i128>, costs: Vec<i128>, counters: Counters) -> Columns
        requires { ArePrices revenues.items costs.items }
        ensures revenues { result.revenues ≡ revenues.items }
        ensures costs { result.costs ≡ costs.items }
    {
        Columns {
            revenues,
            costs,
            counters,
        }
    }

    /// Returns the counters of the instances of these columns. No clause concerns them.
    pub(crate) fn counters(&self) -> &Counters {
        &self.counters
    }

    /// States the invariant: as many revenues as costs, each within the limits.
    pub fn law(&self)
        ensures { ArePrices self.now.revenues self.now.costs }
    {
        let _ = &self.revenues;
    }

    /// Returns the number of rows.
    pub fn len(&self) -> u32
        ensures { result ≡ length self.now.revenues }
    {
        self.revenues.len() as u32
    }

    /// Returns the value of block `u` at a factor in per mille, in billionths: `factor * revenue - 1000 * cost`.
    pub fn value(&self, u: u32, factor: u32) -> i128
        requires block { u < length self.now.revenues }
        requires factor { factor ≤ 100000 }
        ensures value { result ≡ price_of self.now factor u }
        ensures small { (neg_ℤ (pos (10 ^ 23)) ≤ℤ result) × (result ≤ℤ pos (10 ^ 23)) }
    {
        price(factor, self.revenues[u as usize], self.costs[u as usize])
    }

    /// Returns the values of a list of blocks at a factor in per mille, in billionths.
    ///
    /// # Errors
    ///
    /// If memory runs out.
    pub(crate) fn values(
        &self,
        alloc: Global,
        blocks: &[u32],
        factor: u32,
    ) -> Result<Vec<i128>, AllocError>
        requires blocks { All (λ u. u < length self.now.revenues) blocks.now }
        requires factor { factor ≤ 100000 }
        ensures { IfOk result (λ v. v.items ≡ map (price_of self.now factor) blocks.now) }
    {
        let mut values = Vec::with_capacity(alloc, blocks.len())?;
        for &u in blocks {
            values.push(self.value(u, factor))?;
        }
        Ok(values)
    }

    /// Returns the rows of some blocks as columns.
    ///
    /// # Errors
    ///
    /// If memory runs out.
    pub(crate) fn at(&self, alloc: Global, blocks: &[u32]) -> Result<Columns, AllocError>
        requires few { length blocks.now ≤ most_blocks }
        requires blocks { All (λ u. u < length self.now.revenues) blocks.now }
        ensures revenues { IfOk result (λ c. c.revenues ≡ amounts_of self.now.revenues blocks.now) }
        ensures costs { IfOk result (λ c. c.costs ≡ amounts_of self.now.costs blocks.now) }
    {
        self.law();
        let revenues = amounts_at(alloc, &self.revenues, blocks)?;
        let costs = amounts_at(alloc, &self.costs, blocks)?;
        Ok(Columns {
            revenues,
            costs,
            counters: self.counters.share(),
        })
    }

    /// Returns the sum of the values of a list of blocks at a factor in per mille, in billionths.
    pub(crate) fn worth(&self, blocks: &[u32], factor: u32) -> i128
        requires few { length blocks.now ≤ most_blocks }
        requires blocks { All (λ u. u < length self.now.revenues) blocks.now }
        requires factor { factor ≤ 100000 }
        ensures { result ≡ total (length blocks.now) (λ i. price_of self.now factor (get_or blocks.now i 0)) }
    {
        self.law();
        let mut sum = 0;
        for &u in blocks {
            sum += self.value(u, factor);
        }
        sum
    }
}
