//! What the seats at a counter know, and what the counter knows from the start, as plain data. Contracts and the rule in
//! `specs/Drawn.antt` speak of them.
use std::collections::LinkedList;

/// What a seat knows: the number of chunks, how many seats it stands for, and the numbers that the counter gave to it, in order.
/// No value of it is made.
pub struct DrawLedger {
    pub chunks: u64,
    pub seats: u64,
    pub drawn: LinkedList<u64>,
}

/// How many chunks and seats there are.
#[derive(Clone, Copy, Debug)]
pub struct Batch {
    pub chunks: u64,
    pub seats: u64,
}
