//! The state of the seats at a board: the ledger of each worker, as plain data.
//! No value of these types is made; contracts and the rule in `specs/Ledger.antt` speak of them.
use crate::verdict::Reply;
use std::collections::LinkedList;

/// What a worker knows: its cell, from 0, the arcs that it asked, and the replies that it collected.
pub struct WorkerLedger {
    pub cell: u64,
    pub asked: LinkedList<u32>,
    pub collected: LinkedList<Reply>,
}

/// What the holder knows of one worker: the replies that it gave, and the arc that is claimed from it.
pub struct Served {
    pub answered: LinkedList<Reply>,
    pub claimed: Option<u32>,
}

/// What the holder knows: how many workers have a seat, what it did for each, and the cells in which it looked for an ask, in order.
pub struct HolderLedger {
    pub dealt: u64,
    pub served: LinkedList<Served>,
    pub looks: LinkedList<u64>,
}

/// The state of a seat. Each part is optional, so that a worker's seat and the holder's can be joined for a while.
pub struct SeatState {
    pub worker: Option<WorkerLedger>,
    pub holder: Option<HolderLedger>,
}
