//! Why bytes or a line were not taken as a sketch.

ghost use Rattle.std.specs.Prelude.{◌≡◌};
ghost use Rattle.sketch_bytes.specs.declared.fault.BytesFault.TheVariants.{OutOfMemory};
ghost use Rattle.sketch_bytes.specs.declared.fault.LineFault.TheVariants.{Bytes};

use hex::FromHexError;
use std::alloc::{AllocError, AllocFailed};
use thiserror::Error;

/// Why bytes were not taken as a sketch. Of several faults the first that stands here is named.
#[derive(Clone, Copy, Debug, PartialEq, Eq, Error)]
pub enum BytesFault {
    /// So many bytes, which is no multiple of the 4 bytes of a sum.
    #[error("a sketch of {0} bytes, which is no multiple of 4")]
    RaggedLength(u64),
    /// There are no bytes, and a sketch has at least one sum.
    #[error("a sketch of no bytes")]
    EmptySketch,
    /// So many bytes, which is more than the largest capacity has.
    #[error("a sketch of {0} bytes, which is above 16384")]
    TooWide(u64),
    /// Memory ran out.
    #[error("out of memory")]
    OutOfMemory,
}

impl From<AllocError> for BytesFault {
    ghost from_gives = { λ _ fault. fault ≡ OutOfMemory };

    fn from(_error: AllocError) -> BytesFault {
        BytesFault::OutOfMemory
    }
}

impl<T: Drop> From<AllocFailed<T>> for BytesFault {
    ghost from_gives = { λ _ fault. fault ≡ OutOfMemory };

    fn from(_error: AllocFailed<T>) -> BytesFault {
        BytesFault::OutOfMemory
    }
}

/// Why a line was not taken as a sketch. Of several faults the first that stands here is named.
#[derive(Clone, Copy, Debug, PartialEq, Eq)]
pub enum LineFault {
    /// A line of an odd number of digits.
    OddDigits,
    /// The first byte that is no hexadecimal digit stands at this offset, from 0 on.
    BadDigit(u64),
    /// The bytes that the digits spell are no sketch, or memory ran out.
    Bytes(BytesFault),
}

impl From<BytesFault> for LineFault {
    ghost from_gives = { λ fault line_fault. line_fault ≡ Bytes fault };

    fn from(fault: BytesFault) -> LineFault {
        LineFault::Bytes(fault)
    }
}

impl From<FromHexError> for LineFault {
    ghost use Rattle.std.specs.Prelude.{◌≡◌};
    ghost use Rattle.sketch_bytes.specs.Reading.{digits_fault};

    ghost from_gives = { λ error fault. fault ≡ digits_fault error };

    fn from(error: FromHexError) -> LineFault {
        match error {
            FromHexError::InvalidHexCharacter { index, .. } => LineFault::BadDigit(index as u64),
            FromHexError::OutOfMemory => LineFault::Bytes(BytesFault::OutOfMemory),
            _ => LineFault::OddDigits,
        }
    }
}
