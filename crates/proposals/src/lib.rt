//! Where workers propose and one holder answers: a board of asks with one word for each worker, and a counter from which seats draw chunks.
//! Nothing here waits, and only what makes a board or a counter takes memory.
#![tactic(auto)]

mod ask;
mod board;
mod board_id;
mod draw_ledger;
mod draw_seats;
mod draw_steps;
mod draws;
mod law;
mod seat_state;
mod seats;
mod serve;
mod settle;
mod steps;
mod verdict;

pub use board::{Board, UnnamedBoard};
pub use board_id::BoardId;
pub use draw_ledger::{Batch, DrawLedger};
pub use draw_seats::{CounterId, DrawSeat};
pub use draw_steps::Counts;
pub use draws::{Draws, UnnamedDraws};
pub use law::ledger_law;
pub use pit_model::Verdict;
pub use seat_state::{HolderLedger, SeatState, Served, WorkerLedger};
pub use seats::{HolderSeat, WorkerSeat};
pub use steps::Asks;
pub use verdict::Reply;
