//! The revenue and the cost of each block, as two columns of a table of blocks.
ghost use Rattle.std.specs.Prelude.{IfOk, IfErr};
ghost use Rattle.shells.specs.Columns.{AreColumns, RefusesColumns};

use counters::Counters;
use faults::Fault;
use minelib_reader::{BlockTable, column};
use nesting::Columns;
use std::alloc::Global;

/// Made of two columns of a table of blocks.
pub trait FromTable: Sized {
    /// Returns two columns of a table: of revenues and of costs.
    ///
    /// # Errors
    ///
    /// The column of revenues is taken first. If the table has no such column (16), by the least block with a negative number in
    /// it (15), and if memory runs out (1).
    fn of(alloc: Global, table: &BlockTable, revenue: u32, cost: u32) -> Result<Self, Fault>;

    /// Returns the same as `of`, with counters that count over the instances that are made of the columns.
    fn of_with_counters(
        alloc: Global,
        table: &BlockTable,
        revenue: u32,
        cost: u32,
        counters: Counters,
    ) -> Result<Self, Fault>;
}

impl FromTable for Columns {
    fn of(alloc: Global, table: &BlockTable, revenue: u32, cost: u32) -> Result<Columns, Fault>
        ensures columns { IfOk result (AreColumns table.now revenue cost) }
        ensures refused { IfErr result (RefusesColumns table.now revenue cost) }
    {
        Columns::of_with_counters(alloc, table, revenue, cost, Counters::none())
    }

    fn of_with_counters(
        alloc: Global,
        table: &BlockTable,
        revenue: u32,
        cost: u32,
        counters: Counters,
    ) -> Result<Columns, Fault>
        ensures columns { IfOk result (AreColumns table.now revenue cost) }
        ensures refused { IfErr result (RefusesColumns table.now revenue cost) }
    {
        let _rows = table.len();
        let revenues = column(alloc, table, revenue)?;
        let costs = column(alloc, table, cost)?;
        Ok(Columns::with_counters(revenues, costs, counters))
    }
}
