//! Where a block of a block model lies, which no run of the program shows, and its attributes beside it.
use minelib_reader::{BlockTable, parse_blocks};
use std::test::*;

/// The place of a block and its two attributes, in millionths; None where there is no such block.
fn row(table: &BlockTable, id: u32) -> Option<((i32, i32, i32), i128, i128)> {
    if id < table.len() && table.width() == 2 {
        Some((
            table.place(id),
            table.attribute(id, 0),
            table.attribute(id, 1),
        ))
    } else {
        None
    }
}

#[test]
fn a_block_has_its_place_and_its_attributes(rt: HostRuntime) -> Result<(), Fail> {
    let text = "0 3 -4 2147483647 10 -1.5\n1 -2147483648 0 7 0 0.000002\n";
    let table = parse_blocks(rt.alloc(), text.as_bytes())?;
    assert_eq!(rt;
        row(&table, 0),
        Some(((3, -4, 2147483647), 10_000_000, -1_500_000))
    );
    assert_eq!(rt; row(&table, 1), Some(((-2147483648, 0, 7), 0, 2)));
    Ok(())
}
