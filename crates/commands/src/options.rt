//! The options of the commands.

use pit_model::Direction;
use solver::Mode;

/// The mode of a solve, and which pit is wanted of those of equal value.
#[derive(Clone, Copy, Debug)]
pub struct SolveSettings {
    pub mode: Mode,
    pub pit: Direction,
}

/// The names of a mine's files; that of the fixed blocks is optional.
#[derive(Clone, Copy)]
pub struct MineNames<'a> {
    pub model: &'a str,
    pub prec: &'a str,
    pub fixed: Option<&'a str>,
}

/// The options of `solve`: the mine, the names of the certificate and the journal if they are wanted, and the settings.
#[derive(Clone, Copy)]
pub struct SolveOptions<'a> {
    pub mine: MineNames<'a>,
    pub certificate: Option<&'a str>,
    pub journal: Option<&'a str>,
    pub settings: SolveSettings,
}

/// The options of `shells`: its files, the columns of revenue and cost, the text of the factors, and the settings.
#[derive(Clone, Copy)]
pub struct ShellsOptions<'a> {
    pub blocks: &'a str,
    pub prec: &'a str,
    pub revenue: u32,
    pub cost: u32,
    pub factors: &'a str,
    pub settings: SolveSettings,
}

/// The options of `check`.
#[derive(Clone, Copy)]
pub struct CheckOptions<'a> {
    pub mine: MineNames<'a>,
    pub certificate: &'a str,
}

/// The options of `replay`.
#[derive(Clone, Copy)]
pub struct ReplayOptions<'a> {
    pub mine: MineNames<'a>,
    pub journal: &'a str,
}
