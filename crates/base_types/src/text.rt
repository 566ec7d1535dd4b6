//! The faults of text input.

use crate::Hash32;

/// What is wrong with a text input, at a line number or a byte offset that stands beside it.
#[derive(Clone, Copy, Debug, PartialEq, Eq)]
pub enum Kind {
    /// A line has not as many digits as its kind has.
    DigitCount,
    /// A byte is no hexadecimal digit.
    BadDigit,
    /// A line of digits has an odd number of them.
    OddDigits,
    /// An element is 0.
    Zero,
    /// A line repeats an earlier one.
    Repeated,
    /// A sketch whose length in bytes is no multiple of 4.
    RaggedLength(u64),
    /// A sketch of more bytes than the largest capacity has.
    TooWide(u64),
    /// The input has not as many lines as the command reads.
    LineCount,
    /// Two sketches of different lengths.
    LengthsDiffer,
    /// The input or a line has none of the forms that it may have.
    Form,
    /// A transaction of more bytes than one may have.
    TxTooLong,
    /// An id that is not the id of the bytes beside it.
    IdMismatch { stands: Hash32, computed: Hash32 },
    /// A pool file that holds more than a pool may hold.
    PoolFull,
    /// More lines than a command takes.
    TooMany,
}

/// What is wrong with a text input, and where: the number of a line, counted from 1 with the empty lines, or, where
/// lines are too many or too few, how many there are that aren't empty.
#[derive(Clone, Copy, Debug, PartialEq, Eq)]
pub struct TextFault {
    pub place: u64,
    pub kind: Kind,
}
