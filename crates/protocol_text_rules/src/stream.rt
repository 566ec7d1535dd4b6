//! Faults of a stream of frames that is read to its end.

use wire_rules::{FrameFault, PayloadFault};

/// Why a stream of frames wasn't read to its end.
#[derive(Clone, Copy, Debug, PartialEq, Eq)]
pub enum StreamKind {
    /// There is no frame at the offset.
    Frame(FrameFault),
    /// The frame at the offset is no message.
    Payload(PayloadFault),
    /// The stream ends inside the frame at the offset.
    CutShort,
}
