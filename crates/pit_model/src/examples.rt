//! Examples: what the definitions say of small mines, worked out by hand. Each is a law, and one of them is false once a
//! definition has a sign, a comparison, a quantifier or a number changed; `mutants/` has such definitions.

ghost use Rattle.pit_model.specs.ExampleTraces.{JournalsOfForks, TracesOfForks};
ghost use Rattle.pit_model.specs.ExamplePits.{CertificatesOfSmallMines, FixedPitsOfField, PitsOfTwoBlocks, ShellsOfPair};
ghost use Rattle.pit_model.specs.ExampleGraphs.{CyclesOfSmallGraphs, LimitsOfMines, PartsOfFive};
ghost use Rattle.pit_model.specs.ExampleTexts.{TextsOfSmallAnswers};
ghost use Rattle.pit_model.specs.ExampleLists.{ShortLists};
ghost use Rattle.pit_model.specs.FactorLimits.{LimitsOfFactors};
ghost use Rattle.pit_model.specs.PriceLimits.{LimitsOfPrices};

/// Three mergers of a fork of four blocks: one cuts a link, one cuts between two strong branches, and one uses a residual up
/// exactly, which keeps its link. Also the merger arc that the first run takes each time.
pub fn traces_of_forks()
    ensures { TracesOfForks }
{}

/// Which verdicts are lawful on the forks, with a budget and without, and how a replay ends: also where the budget is used up
/// and an arc is stale.
pub fn journals_of_forks()
    ensures { JournalsOfForks }
{}

/// A block that pays for what it needs is dug with it; one that only just does is dug where the greatest pit is asked for.
pub fn pits_of_two_blocks()
    ensures { PitsOfTwoBlocks }
{}

/// Two flows show one pit; and each condition of a certificate refuses a flow that breaks it alone.
pub fn certificates_of_small_mines()
    ensures { CertificatesOfSmallMines }
{}

/// A pit with a block forced in, one with a block barred, the rest, and a clash.
pub fn fixed_pits_of_field()
    ensures { FixedPitsOfField }
{}

/// Values, pits and worths of two blocks at three factors, and what is left outside a shell.
pub fn shells_of_pair()
    ensures { ShellsOfPair }
{}

/// Five blocks fall into three parts; and what is no graph.
pub fn parts_of_five()
    ensures { PartsOfFive }
{}

/// The cycle that is named where two needs compete, and where a way leads into it.
pub fn cycles_of_small_graphs()
    ensures { CyclesOfSmallGraphs }
{}

/// How large a mine may be, as numbers.
pub fn limits_of_mines()
    ensures { LimitsOfMines }
{}

/// The texts of a pit, a journal and a list of shells, byte by byte.
pub fn texts_of_small_answers()
    ensures { TextsOfSmallAnswers }
{}

/// Which short lists are pits, pairs that stand apart, fixable blocks, entries of a journal and nested shells, and which are not.
pub fn short_lists()
    ensures { ShortLists }
{}

/// Which lists of factors are lawful, at each limit.
pub fn limits_of_factors()
    ensures { LimitsOfFactors }
{}

/// Which revenues and costs are lawful, at each limit.
pub fn limits_of_prices()
    ensures { LimitsOfPrices }
{}
