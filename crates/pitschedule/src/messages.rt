//! The messages of refusals, on standard error.

use schedule_runs::{BrokenLimit, Quantity, Refused, Section};

/// Returns the name of what a problem counts.
fn name_of(quantity: Quantity) -> &'static str {
    match quantity {
        Quantity::Blocks => "blocks",
        Quantity::Periods => "periods",
        Quantity::Destinations => "destinations",
        Quantity::Columns => "columns",
        Quantity::Limits => "limits",
        Quantity::Terms => "terms",
        Quantity::Nodes => "nodes (blocks times periods)",
        Quantity::Capacities => "capacities (limits times periods)",
    }
}

/// Returns what is wrong with a number of a line of `VALUE`: destination, column, lag.
fn wrong_in_value(place: u64) -> &'static str {
    match place {
        0 => "there is no such destination",
        1 => "there is no such column",
        _ => "the lag is above 65536",
    }
}

/// Returns what is wrong with a number of a line of `USE`: destination, limit, column, lag.
fn wrong_in_use(place: u64) -> &'static str {
    match place {
        0 => "there is no such destination",
        1 => "there is no such limit",
        2 => "there is no such column",
        _ => "the lag is above 65536",
    }
}

/// Prints which number of a section is out of range.
fn print_number(rt: &HostRuntime, section: Section, i: u64) {
    let _ = match section {
        Section::Discounts => eprintln!(rt;
            "pitschedule: problem: the discount factor of period {i} is not from -1 to 1"
        ),
        Section::Capacities => eprintln!(rt;
            "pitschedule: problem: capacity {i} (from 0, line by line) is not from -1000000000000 to 1000000000000"
        ),
        Section::Values => eprintln!(rt;
            "pitschedule: problem: VALUE {}: {}",
            i / 3,
            wrong_in_value(i % 3)
        ),
        Section::Uses => eprintln!(rt;
            "pitschedule: problem: USE {}: {}",
            i / 4,
            wrong_in_use(i % 4)
        ),
        Section::Amounts => eprintln!(rt;
            "pitschedule: problem: amount {i} (from 0, line by line) is not from -10000000000 to 10000000000"
        ),
    };
}

/// Prints which limit a problem breaks.
fn print_limit(rt: &HostRuntime, limit: BrokenLimit) {
    match limit {
        BrokenLimit::Count(quantity, count) => {
            let name = name_of(quantity);
            let (least, most) = (quantity.fewest(), quantity.greatest());
            let _ = eprintln!(rt;
                "pitschedule: problem: {count} {name}, allowed are {least} to {most}"
            );
        }
        BrokenLimit::Number(section, i) => print_number(rt, section, i),
        BrokenLimit::Pairs(count) => {
            let _ = eprintln!(rt;
                "pitschedule: problem: {count} pairs of nodes (periods times the sum of arcs and blocks), allowed are 0 to 67108864"
            );
        }
    }
}

/// Prints why there is no answer. A failed write is ignored.
pub fn print_refusal(rt: &HostRuntime, refused: &Refused) {
    let _ = match refused {
        Refused::NoMemory => rt.eprintln("pitschedule: no memory"),
        Refused::Problem(fault) => eprintln!(rt; "pitschedule: problem: {fault}"),
        Refused::Precedence(fault) => eprintln!(rt; "pitschedule: precedence: {fault}"),
        Refused::Beyond(limit) => {
            print_limit(rt, *limit);
            Ok(())
        }
        Refused::Schedule(fault) => eprintln!(rt; "pitschedule: schedule: {fault}"),
        Refused::NoShare(number) => eprintln!(rt;
            "pitschedule: schedule: share {number} names no block, period or destination of the problem, or is not from 0 to 1"
        ),
        Refused::ShareAbove(number) => eprintln!(rt;
            "pitschedule: schedule: with share {number} more than a whole block goes to one destination in one period"
        ),
        Refused::Prices(fault) => eprintln!(rt; "pitschedule: prices: {fault}"),
        Refused::PriceOutOfRange(place) => eprintln!(rt;
            "pitschedule: prices: price {place} (from 0, line by line) is not from 0 to 1000000000"
        ),
        Refused::ValueBeyond(node) => eprintln!(rt;
            "pitschedule: prices: the value of node {node} is not from -10^17 to 10^17"
        ),
        Refused::WriteFailed => rt.eprintln("pitschedule: a write failed"),
    };
}
