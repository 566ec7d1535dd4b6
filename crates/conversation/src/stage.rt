//! Where a conversation stands.

use clmul_lanes::Lane32;
use initiator::Initiator;
use responder::Responder;

/// Where a conversation stands.
#[derive(Drop)]
pub(crate) enum Stage {
    /// The peer's version hasn't come.
    Greeting,
    /// It has, and the peer's handshake isn't over.
    Greeted,
    /// The handshake is over, and this side starts rounds.
    Opener(Initiator<Lane32>),
    /// The handshake is over, and the peer starts rounds.
    Accepter(Responder<Lane32>),
}
