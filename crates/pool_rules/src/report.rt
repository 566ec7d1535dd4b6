//! How rounds end.

use base_types::{Hashes, Shorts};

/// How a round ended.
#[derive(Clone, Copy, Debug, PartialEq, Eq)]
pub enum Ending {
    /// The first sketch was answered.
    First,
    /// The extended sketch was answered.
    Extension,
    /// The sketch extended twice was answered.
    Extension2,
    /// No sketch was: all is announced.
    Fallback,
}

/// What one side tells of a round that is over.
#[derive(Debug, Drop)]
pub struct Report {
    /// The ids that this side's set had when the round took it.
    pub snapshot: Hashes,
    /// The capacity of the first sketch.
    pub capacity: u32,
    pub ending: Ending,
    /// The opener's: the short ids of the difference. The accepter's: those that it was asked for.
    pub answered: Shorts,
}
