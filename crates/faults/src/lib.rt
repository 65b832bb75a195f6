//! Why a text or a run was refused: one type for all crates, with the words and the number of each refusal.
#![tactic(auto)]

mod fault;
mod refusal;
mod source;

pub use fault::Fault;
pub use refusal::Refusal;
pub use source::Source;
