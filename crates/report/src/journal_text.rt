//! What the text of a journal says, as a value.

use pit_model::Entry;

/// The budget of mergers, if there is one, and the decisions in their order.
#[derive(Debug, Drop)]
pub struct JournalText {
    pub budget: Option<u64>,
    pub entries: Vec<Entry>,
}
