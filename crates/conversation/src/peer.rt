//! What was noted of the peer.

ghost use Rattle.std.specs.Prelude.{◌≡◌, ◌==◌};

/// What a `sendtxrcncl` says: the version of reconciliation, and the salt.
#[derive(Clone, Copy, Debug)]
pub(crate) struct Offer {
    pub(crate) version: u32,
    pub(crate) salt: u64,
}

impl Offer {
    /// Whether its version is 0, which no peer may offer.
    pub(crate) fn is_zero(&self) -> bool
        ensures { result ≡ (self.now.version == 0) }
    {
        self.version == 0
    }
}

/// What was noted of the peer.
#[derive(Clone, Copy, Debug)]
pub(crate) struct Peer {
    /// Whether it announces transactions by wtxid (BIP 339).
    pub(crate) relays_by_id: bool,
    /// What it offered of reconciliation (BIP 330).
    pub(crate) offer: Option<Offer>,
}
