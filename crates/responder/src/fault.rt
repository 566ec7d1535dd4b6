//! Why a message of a round is refused.

ghost use Rattle.std.specs.Prelude.{◌≡◌};
ghost use Rattle.responder.specs.declared.fault.ResponderFault.TheVariants.{OutOfMemory as out_of_memory};

use base_types::OutOfMemory;
use std::alloc::{AllocError, AllocFailed};
use wire_rules::{Name, Phase};

/// Why a message of a round is refused.
#[derive(Clone, Copy, Debug, PartialEq, Eq)]
pub enum ResponderFault {
    /// The message doesn't belong in this phase.
    Misplaced { command: Name, phase: Phase },
    /// This short id is asked for, and isn't sketched.
    UnknownShortId(u32),
    /// This short id is asked for again.
    AskRepeated(u32),
    /// So many short ids are asked for, although the difference wasn't found.
    AsksOnFailure(u64),
    /// Memory ran out.
    OutOfMemory,
}

impl From<OutOfMemory> for ResponderFault {
    ghost from_gives = { λ _ fault. fault ≡ out_of_memory };

    fn from(_error: OutOfMemory) -> ResponderFault {
        ResponderFault::OutOfMemory
    }
}

impl From<AllocError> for ResponderFault {
    ghost from_gives = { λ _ fault. fault ≡ out_of_memory };

    fn from(_error: AllocError) -> ResponderFault {
        ResponderFault::OutOfMemory
    }
}

impl<T: Drop> From<AllocFailed<T>> for ResponderFault {
    ghost from_gives = { λ _ fault. fault ≡ out_of_memory };

    fn from(_error: AllocFailed<T>) -> ResponderFault {
        ResponderFault::OutOfMemory
    }
}
