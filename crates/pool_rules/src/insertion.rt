//! What becomes of a transaction that is put into a pool.

/// What becomes of a transaction that is put into a pool.
#[derive(Clone, Copy, Debug, PartialEq, Eq)]
pub enum Inserted {
    /// It is the pool's last now.
    New,
    /// The pool has it already.
    Present,
    /// The pool lacks it, and has no room for it.
    Full,
}
