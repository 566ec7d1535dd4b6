//! Why a sketch was not taken.

use base_types::OutOfMemory;
use wire_rules::{Name, Phase};

/// Why a sketch was not taken.
#[derive(Clone, Copy, Debug, PartialEq, Eq)]
pub enum InitiatorFault {
    /// No sketch is waited for in this phase.
    Misplaced { command: Name, phase: Phase },
    /// It has not the length in bytes that is wanted. 0 is wanted where a first sketch has no length that it may have.
    SketchLength { len: u64, wanted: u64 },
    /// Memory ran out.
    OutOfMemory,
}

impl From<OutOfMemory> for InitiatorFault {
    ghost use Rattle.std.specs.Prelude.{◌≡◌};
    ghost use Rattle.initiator.specs.declared.fault.InitiatorFault.TheVariants as fault;

    ghost from_gives = { λ _ told. told ≡ fault.OutOfMemory };

    fn from(_error: OutOfMemory) -> InitiatorFault {
        InitiatorFault::OutOfMemory
    }
}
