//! Why a frame or a payload was not read.

use std::alloc::{AllocError, AllocFailed};
use wire_rules::{PayloadFault, PayloadKind};

/// Why a frame was not decoded.
#[derive(Clone, Copy, Debug, PartialEq, Eq)]
pub enum DecodeFault {
    /// The first fault of the payload, from the left.
    Payload(PayloadFault),
    /// Memory ran out.
    OutOfMemory,
}

impl From<AllocError> for DecodeFault {
    ghost use Rattle.std.specs.Prelude.{◌≡◌};
    ghost use Rattle.recon_messages.specs.declared.fault.DecodeFault.TheVariants.{OutOfMemory};

    ghost from_gives = { λ _ fault. fault ≡ OutOfMemory };

    fn from(_error: AllocError) -> DecodeFault {
        DecodeFault::OutOfMemory
    }
}

/// Why a payload was not read: a fault at an offset, or want of memory.
#[derive(Clone, Copy, Debug, PartialEq, Eq)]
pub(crate) enum FieldStop {
    Fault { at: u64, kind: PayloadKind },
    OutOfMemory,
}

impl From<AllocError> for FieldStop {
    ghost use Rattle.std.specs.Prelude.{◌≡◌};
    ghost use Rattle.recon_messages.specs.declared.fault.FieldStop.TheVariants.{OutOfMemory};

    ghost from_gives = { λ _ stop. stop ≡ OutOfMemory };

    fn from(_error: AllocError) -> FieldStop {
        FieldStop::OutOfMemory
    }
}

impl<T: Drop> From<AllocFailed<T>> for FieldStop {
    ghost use Rattle.std.specs.Prelude.{◌≡◌};
    ghost use Rattle.recon_messages.specs.declared.fault.FieldStop.TheVariants.{OutOfMemory};

    ghost from_gives = { λ _ stop. stop ≡ OutOfMemory };

    fn from(_error: AllocFailed<T>) -> FieldStop {
        FieldStop::OutOfMemory
    }
}
