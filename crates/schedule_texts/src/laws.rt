//! Laws: the texts of the formats' example read so, and texts at fault are refused by their line. Each is a function with an empty body whose
//! contract is the law.
ghost use Rattle.schedule_texts.specs.ExampleTexts.{TextsAtFault, TextsOfTwoBlocks};

/// The texts of two blocks in two periods spell their lists, shares and prices. Those of another mine are refused by their line.
pub fn texts_of_two_blocks()
    ensures { TextsOfTwoBlocks }
{}

/// Lines of a schedule's text with one field changed, one too few or one too many are refused by their line.
pub fn texts_at_fault()
    ensures { TextsAtFault }
{}
