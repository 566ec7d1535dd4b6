//! The sides of a pair.

/// A side of a pair: a is the opener, b the accepter.
#[derive(Clone, Copy, Debug, PartialEq, Eq)]
pub enum Side {
    A,
    B,
}
