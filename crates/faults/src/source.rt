//! The inputs in which a fault may lie, with the words that name them.
ghost use Rattle.std.specs.Prelude.{◌≡◌, ◌≤◌, length};
ghost use Rattle.faults.specs.Words.{place_word, source_text};

/// Which input a fault lies in.
#[derive(Clone, Copy, Debug, PartialEq, Eq)]
pub enum Source {
    None,
    Model,
    Precedence,
    Blocks,
    Certificate,
    Journal,
    Factors,
    Fixed,
}

impl Source {
    /// Returns the words that name the input, with ` in ` before them; nothing without one.
    pub fn words(self) -> &'static str
        ensures text { result.now ≡ source_text self }
        ensures short { length result.now ≤ 40 }
    {
        match self {
            Source::None => "",
            Source::Model => " in model",
            Source::Precedence => " in precedence",
            Source::Blocks => " in blocks",
            Source::Certificate => " in certificate",
            Source::Journal => " in journal",
            Source::Factors => " in factors",
            Source::Fixed => " in fixed",
        }
    }

    /// The word before the number of a line, or of an item of a list of factors.
    pub fn place_word(self) -> &'static str
        ensures text { result.now ≡ place_word self }
        ensures short { length result.now ≤ 40 }
    {
        match self {
            Source::Factors => " item ",
            _ => " line ",
        }
    }
}
