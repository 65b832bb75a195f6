//! The text of a certificate: written, and read back. The certificate itself, made of a tree and checked, is `optimality`'s.
#![tactic(auto)]

mod due;
mod head;
mod lines;
mod reader;
mod writer;

pub use optimality::{Certificate, check, of_tree};
pub use reader::{certificate_law, parse_certificate, read};
pub use writer::write;
