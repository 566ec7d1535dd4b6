//! Why a feeder answers no frame.

ghost use Rattle.std.specs.Prelude.{◌≡◌};
ghost use Rattle.p2p_frame.specs.declared.stop.FeedStop.TheVariants.{Fault, OutOfMemory};

use std::alloc::AllocError;
use wire_rules::FrameFault;

/// Why a feeder answers no frame.
#[derive(Clone, Copy, Debug, PartialEq, Eq)]
pub enum FeedStop {
    /// The stream has no frame at an offset.
    Fault(FrameFault),
    /// Memory ran out for the payload of a frame.
    OutOfMemory,
}

impl From<FrameFault> for FeedStop {
    ghost from_gives = { λ fault stop. stop ≡ Fault fault };

    fn from(fault: FrameFault) -> FeedStop {
        FeedStop::Fault(fault)
    }
}

impl From<AllocError> for FeedStop {
    ghost from_gives = { λ _ stop. stop ≡ OutOfMemory };

    fn from(_error: AllocError) -> FeedStop {
        FeedStop::OutOfMemory
    }
}
