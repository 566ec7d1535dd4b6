//! Why a frame's payload is no message.

use crate::Name;

/// What is wrong with a payload.
#[derive(Clone, Copy, Debug, PartialEq, Eq)]
pub enum PayloadKind {
    /// It ends inside a field, or it is the empty payload of a `tx`.
    Short,
    /// Bytes are left behind the last field.
    Trailing,
    /// A count is not spelled in as few bytes as it can be.
    NotMinimal,
    /// A count is above its limit.
    TooMany,
    /// The first byte of a `reconcildiff` is neither 0 nor 1.
    BadFlag,
}

/// What is wrong with the payload of a command, and the offset in the payload at which it is found.
#[derive(Clone, Copy, Debug, PartialEq, Eq)]
pub struct PayloadFault {
    pub command: Name,
    pub at: u64,
    pub kind: PayloadKind,
}
