//! Laws: runs over the same texts end alike, and examples read, break limits and are refuted so. Each is a function with an empty body whose
//! contract is the law.
ghost use Rattle.schedule_runs.specs.ExampleRefusals.{LimitsOfProblems, RefutedSchedules};
ghost use Rattle.schedule_runs.specs.ExampleAnswer.{AnswerOfTwoBlocks};
ghost use Rattle.schedule_runs.specs.OneAnswer.{BoundIsRefusedOnce, BoundedIsBlameless, BoundsOneWay, CheckAndBoundIsRefusedOnce, CheckIsRefusedOnce, CheckedAndBoundedIsBlameless, CheckedIsBlameless, ChecksAndBoundsOneWay, ChecksOneWay};

/// Two runs over the same texts that answer write the same text.
pub fn runs_write_one_text()
    ensures check { ChecksOneWay }
    ensures both { ChecksAndBoundsOneWay }
    ensures bound { BoundsOneWay }
{}

/// If a run answers, no run over the same texts finds a fault in them or a limit that they break.
pub fn answered_texts_are_not_refused()
    ensures check { CheckedIsBlameless }
    ensures both { CheckedAndBoundedIsBlameless }
    ensures bound { BoundedIsBlameless }
{}

/// Two runs over the same texts that find a fault or a broken limit find the same one.
pub fn texts_have_one_refusal()
    ensures check { CheckIsRefusedOnce }
    ensures both { CheckAndBoundIsRefusedOnce }
    ensures bound { BoundIsRefusedOnce }
{}

/// The lists that the text of two blocks in two periods spells are those of their problem, and the answer to it reads so.
pub fn answer_of_two_blocks()
    ensures { AnswerOfTwoBlocks }
{}

/// The least and the greatest lawful count of each quantity, and number of each section.
pub fn limits_of_problems()
    ensures { LimitsOfProblems }
{}

/// Shares of two blocks that are no schedule, and what is written of them.
pub fn refuted_schedules()
    ensures { RefutedSchedules }
{}
