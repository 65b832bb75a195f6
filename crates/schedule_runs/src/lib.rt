//! The commands of `pitschedule`, from the bytes of texts to what is true of the schedule that they spell.
#![tactic(auto)]

mod broken_limit;
mod laws;
mod limits;
mod problem;
mod refused;
mod run;
mod shares;
mod status;
mod terms;
mod text;
mod verdict;

pub use broken_limit::{BrokenLimit, Quantity, Section};
pub use laws::{
    answer_of_two_blocks, answered_texts_are_not_refused, limits_of_problems, refuted_schedules,
    runs_write_one_text, texts_have_one_refusal,
};
pub use refused::Refused;
pub use run::{ProblemTexts, run_bound, run_check, run_check_and_bound};
pub use shares::Share;
pub use status::exit_status;
pub use verdict::Verdict;
