//! What becomes of a transaction that is added to a node.

/// What becomes of a transaction that is added to a node.
#[derive(Clone, Copy, Debug, PartialEq, Eq)]
pub enum Added {
    /// It is in the pool now.
    New,
    /// The pool has it already.
    Present,
    /// The pool lacks it, and there is no room for it.
    Full,
    /// The node has ended.
    Ended,
}
