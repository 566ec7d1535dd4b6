//! Why a sketch was not made.

ghost use Rattle.std.specs.Prelude.{◌≡◌};
ghost use Rattle.sketch_core.specs.declared.fault.SketchFault.TheVariants.{OutOfMemory};

use std::alloc::AllocError;
use thiserror::Error;

/// Why a sketch was not made.
#[derive(Clone, Copy, Debug, PartialEq, Eq, Error)]
pub enum SketchFault {
    /// The capacity asked for is 0 or above the largest.
    #[error("a sketch has 1 to 4096 sums, and not {0}")]
    CapacityOutOfRange(usize),
    /// Memory ran out.
    #[error("out of memory")]
    OutOfMemory,
}

impl From<AllocError> for SketchFault {
    ghost from_gives = { λ _ fault. fault ≡ OutOfMemory };

    fn from(_error: AllocError) -> SketchFault {
        SketchFault::OutOfMemory
    }
}
