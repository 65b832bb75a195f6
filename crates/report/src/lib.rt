//! The texts that are written, byte for byte, and nothing behind a write that failed; and the journal's text read back.
#![tactic(auto)]

mod answer;
mod due;
mod fault;
mod head;
mod journal;
mod journal_lines;
mod journal_reader;
mod journal_text;
mod number;
mod out;
mod pit;
mod replay;
mod shells;

pub use answer::write_answer;
pub use fault::write_fault;
pub use head::{check_count, check_title, read_number, three_fields};
pub use journal::write_journal;
pub use journal_reader::{journal_law, journal_reads_back, parse_journal, read_journal};
pub use journal_text::JournalText;
pub use number::{printed_examples, printed_numbers_read_back, put_millionths, put_number};
pub use out::{Out, end_line, finish, put};
pub use pit::{pit_reads_back, put_line, write_pit};
pub use replay::{write_difference, write_open};
pub use shells::write_shells;
