//! Why a node takes no more.

use base_types::OutOfMemory;
use initiator::InitiatorFault;
use node_rules::End;
use responder::ResponderFault;
use std::alloc::{AllocError, AllocFailed};

/// Why a node takes no more.
#[derive(Clone, Copy, Debug, PartialEq, Eq)]
pub enum Stop {
    /// It refused something of its peer's stream.
    Ended(End),
    /// Memory ran out.
    OutOfMemory,
}

impl From<OutOfMemory> for Stop {
    ghost use Rattle.std.specs.Prelude.{◌≡◌};
    ghost use Rattle.conversation.specs.declared.stop.Stop.TheVariants as stop;

    ghost from_gives = { λ _ told. told ≡ stop.OutOfMemory };

    fn from(_error: OutOfMemory) -> Stop {
        Stop::OutOfMemory
    }
}

impl From<AllocError> for Stop {
    ghost use Rattle.std.specs.Prelude.{◌≡◌};
    ghost use Rattle.conversation.specs.declared.stop.Stop.TheVariants as stop;

    ghost from_gives = { λ _ told. told ≡ stop.OutOfMemory };

    fn from(_error: AllocError) -> Stop {
        Stop::OutOfMemory
    }
}

impl<T: Drop> From<AllocFailed<T>> for Stop {
    ghost use Rattle.std.specs.Prelude.{◌≡◌};
    ghost use Rattle.conversation.specs.declared.stop.Stop.TheVariants as stop;

    ghost from_gives = { λ _ told. told ≡ stop.OutOfMemory };

    fn from(_error: AllocFailed<T>) -> Stop {
        Stop::OutOfMemory
    }
}

impl From<InitiatorFault> for Stop {
    ghost use Rattle.std.specs.Prelude.{◌≡◌};
    ghost use Rattle.initiator.specs.Questions.{end_of};
    ghost use Rattle.conversation.specs.Handled.{stop_for};

    ghost from_gives = { λ fault told. told ≡ stop_for (end_of fault) };

    fn from(fault: InitiatorFault) -> Stop {
        match fault {
            InitiatorFault::Misplaced { command, phase } => {
                Stop::Ended(End::Misplaced { command, phase })
            }
            InitiatorFault::SketchLength { len, wanted } => {
                Stop::Ended(End::SketchLength { len, wanted })
            }
            InitiatorFault::OutOfMemory => Stop::OutOfMemory,
        }
    }
}

impl From<ResponderFault> for Stop {
    ghost use Rattle.std.specs.Prelude.{◌≡◌};
    ghost use Rattle.responder.specs.Refusals.{end_of};
    ghost use Rattle.conversation.specs.Handled.{stop_for};

    ghost from_gives = { λ fault told. told ≡ stop_for (end_of fault) };

    fn from(fault: ResponderFault) -> Stop {
        match fault {
            ResponderFault::Misplaced { command, phase } => {
                Stop::Ended(End::Misplaced { command, phase })
            }
            ResponderFault::UnknownShortId(short) => Stop::Ended(End::UnknownShortId(short)),
            ResponderFault::AskRepeated(short) => Stop::Ended(End::AskRepeated(short)),
            ResponderFault::AsksOnFailure(count) => Stop::Ended(End::AsksOnFailure(count)),
            ResponderFault::OutOfMemory => Stop::OutOfMemory,
        }
    }
}
