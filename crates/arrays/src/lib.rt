//! Mines that are given as arrays, as C and Python hold them, and answers that are written into arrays.
#![tactic(auto)]

mod array_error;
mod certified;
mod columns;
mod cycle;
mod firsts;
mod fixing;
mod graph;
mod halves;
mod marks;
mod mine;
mod needs;
mod nested;
mod ordered;
mod pit;
mod rows;

pub use array_error::ArrayError;
pub use certified::{Certified, check_marks, mark_certified};
pub use csr::CsrView;
pub use cycle::find_cycle;
pub use halves::{Halves, have_room, join_halves, split_i128, write_halves};
pub use mine::{arrays_encode_one_mine, mine_of};
pub use nested::{DepositArrays, mark_shells};
pub use pit::{MineArrays, mark_pit};
