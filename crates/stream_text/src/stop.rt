//! Why a stream was not shown.

ghost use Rattle.std.specs.Prelude.{◌≡◌};
ghost use Rattle.stream_text.specs.declared.stop.ShowStop.TheVariants.{OutOfMemory};

use base_types::OutOfMemory as NoMemory;
use protocol_text_rules::StreamKind;
use std::alloc::AllocFailed;

/// Why a stream was not shown.
#[derive(Clone, Copy, Debug, PartialEq, Eq)]
pub enum ShowStop {
    /// Its first fault, and the offset of the first byte of the frame that has it.
    Fault { offset: u64, kind: StreamKind },
    /// Memory ran out.
    OutOfMemory,
}

impl From<NoMemory> for ShowStop {
    ghost from_gives = { λ _ stop. stop ≡ OutOfMemory };

    fn from(_error: NoMemory) -> ShowStop {
        ShowStop::OutOfMemory
    }
}

impl<T: Drop> From<AllocFailed<T>> for ShowStop {
    ghost from_gives = { λ _ stop. stop ≡ OutOfMemory };

    fn from(_error: AllocFailed<T>) -> ShowStop {
        ShowStop::OutOfMemory
    }
}
