//! Why a node ends.

use wire_rules::{FrameFault, Name, PayloadFault, Phase};

/// Why a node ended: the first thing in its peer's stream that it refuses.
#[derive(Clone, Copy, Debug, PartialEq, Eq)]
pub enum End {
    /// The stream has no frame at an offset.
    Frame(FrameFault),
    /// A frame's payload is no message.
    Payload(PayloadFault),
    /// The peer's version is below 70016.
    OldPeer(i32),
    /// The peer asks for no transactions.
    PeerNoRelay,
    /// The peer's handshake ended without `wtxidrelay`.
    NoWtxidRelay,
    /// The peer's version of reconciliation is 0.
    ZeroReconVersion,
    /// A message doesn't belong before, or behind, the handshake.
    Handshake { command: Name },
    /// A message doesn't belong in this phase.
    Misplaced { command: Name, phase: Phase },
    /// A sketch has not the length that is wanted. 0 is wanted where a first sketch has no length that it may have.
    SketchLength { len: u64, wanted: u64 },
    /// A short id is asked for that isn't sketched.
    UnknownShortId(u32),
    /// A short id is asked for again.
    AskRepeated(u32),
    /// So many short ids are asked for, although the difference wasn't found.
    AsksOnFailure(u64),
    /// There is no room for what was announced or sent.
    PoolFull,
}
