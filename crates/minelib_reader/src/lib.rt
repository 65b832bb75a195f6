//! Readers of mine models, the devices that they read from and write to, and the faults that they answer.
#![tactic(auto)]

mod blocks;
mod columns;
mod device;
mod fixed;
mod history;
mod input;
mod limits;
mod lines;
mod number;
mod output;
mod pieces;
mod prec;
mod rows;
mod stream;
mod table;
mod tally;
mod upit;

pub use blocks::{blocks_law, parse_blocks, read_blocks};
pub use columns::column;
pub use device::{DeviceFailed, InBytes, OutBytes};
pub use faults::{Fault, Refusal, Source};
pub use fixed::{fixed_law, parse_fixed, read_fixed};
pub use input::{FileReader, MemoryReader, read_all};
pub use lines::{next_field, next_whole, two_fields};
pub use number::{Decimal, cut, decimal, digits, whole_number};
pub use output::{MemoryWriter, StreamWriter, write_all};
pub use prec::{parse_prec_rows, prec_law, read_prec, read_prec_rows};
pub use rows::{Row, TextRows};
pub use stream::{InputStream, OutputStream};
pub use table::BlockTable;
pub use upit::{Model, parse_upit, read_upit, upit_law};
