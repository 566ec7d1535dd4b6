//! Why the difference of two sets was not sought.

ghost use Rattle.std.specs.Prelude.{◌≡◌};
ghost use Rattle.set_difference.specs.declared.fault.DifferenceFault.TheVariants as difference_fault;

use base_types::OutOfMemory;
use sketch_bytes::BytesFault;
use thiserror::Error;

/// Why the difference of two sets was not sought. Of several faults the first that stands here is named.
#[derive(Clone, Copy, Debug, PartialEq, Eq, Error)]
pub enum DifferenceFault {
    /// The first bytes are no sketch.
    #[error("ours: {0}")]
    Ours(BytesFault),
    /// The second bytes are no sketch.
    #[error("theirs: {0}")]
    Theirs(BytesFault),
    /// Two sketches of different lengths.
    #[error("two sketches of different lengths")]
    LengthsDiffer,
    /// Memory ran out.
    #[error("out of memory")]
    OutOfMemory,
}

impl From<OutOfMemory> for DifferenceFault {
    ghost from_gives = { λ _ fault. fault ≡ difference_fault.OutOfMemory };

    fn from(_error: OutOfMemory) -> DifferenceFault {
        DifferenceFault::OutOfMemory
    }
}
