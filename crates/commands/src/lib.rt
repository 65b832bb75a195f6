//! The commands `solve`, `shells`, `check` and `replay`, over any file system (`solve_call` and the like) and over any readers and
//! writers (`run_solve` and the like). Each has a file that opens the inputs, reads them, solves, writes and ends the outputs. Also
//! the laws that two runs over the same texts end alike, the parsers of the words of `--mode` and `--pit`, and the exit status.
#![tactic(auto)]

mod check;
mod deposit;
mod ending;
mod inputs;
mod laws;
mod make_outputs;
mod mine;
mod mode_option;
mod nested;
mod options;
mod outputs;
mod pit_option;
mod place;
mod readers;
mod replay;
mod solve;
mod status;
mod writers;

pub use check::{check_call, run_check};
pub use ending::report_fault;
pub use inputs::InputFiles;
pub use laws::{
    answer_is_one, check_answers_once, done_texts_have_no_fault, shells_write_one_text,
    solve_passes_check, solve_passes_replay, solve_writes_one_text, texts_have_one_fault,
};
pub use mine::{FixedMine, MineFiles};
pub use mode_option::{mode_fault, parse_mode};
pub use nested::{run_shells, shells_call};
pub use options::{
    CheckOptions, MineNames, ReplayOptions, ShellsOptions, SolveOptions, SolveSettings,
};
pub use outputs::OutputFiles;
pub use pit_option::{parse_pit, pit_fault};
pub use replay::{replay_call, run_replay};
pub use solve::{run_solve, solve_call};
pub use status::{Status, exit_code};
