//! Why a line was not read as a message.

use base_types::OutOfMemory as NoMemory;
use std::alloc::{AllocError, AllocFailed};

/// Why a line was not read as a message.
#[derive(Clone, Copy, Debug, PartialEq, Eq)]
pub enum ShownFault {
    /// The line is the shown line of no message that may be sent.
    Form,
    /// Memory ran out.
    OutOfMemory,
}

impl From<NoMemory> for ShownFault {
    ghost use Rattle.std.specs.Prelude.{◌≡◌};
    ghost use Rattle.shown_reading.specs.declared.fault.ShownFault.TheVariants.{OutOfMemory};

    ghost from_gives = { λ _ fault. fault ≡ OutOfMemory };

    fn from(_error: NoMemory) -> ShownFault {
        ShownFault::OutOfMemory
    }
}

impl From<AllocError> for ShownFault {
    ghost use Rattle.std.specs.Prelude.{◌≡◌};
    ghost use Rattle.shown_reading.specs.declared.fault.ShownFault.TheVariants.{OutOfMemory};

    ghost from_gives = { λ _ fault. fault ≡ OutOfMemory };

    fn from(_error: AllocError) -> ShownFault {
        ShownFault::OutOfMemory
    }
}

impl<T: Drop> From<AllocFailed<T>> for ShownFault {
    ghost use Rattle.std.specs.Prelude.{◌≡◌};
    ghost use Rattle.shown_reading.specs.declared.fault.ShownFault.TheVariants.{OutOfMemory};

    ghost from_gives = { λ _ fault. fault ≡ OutOfMemory };

    fn from(_error: AllocFailed<T>) -> ShownFault {
        ShownFault::OutOfMemory
    }
}
