//! The list behind the values of blocks.
use std::sync::Arc;

/// Amounts by block, of one holder or shared by several.
#[derive(Drop)]
pub(crate) enum Amounts {
    Own(Vec<i128>),
    Shared(Arc<Vec<i128>>),
}
