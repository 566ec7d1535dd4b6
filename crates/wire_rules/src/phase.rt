//! Where a node stands in its conversation.

/// Where a node stands. The first two come before the handshake is over; `Waiting` to `Fetching` are an opener's alone,
/// `Sent` and `SentExt` an accepter's.
#[derive(Clone, Copy, Debug, PartialEq, Eq)]
pub enum Phase {
    /// No message came yet.
    Greeting,
    /// The peer's `version` came.
    Greeted,
    /// The handshake is over, and no round is under way.
    Idle,
    /// A round was asked for.
    Waiting,
    /// The extension of the sketch was asked for.
    WaitingExt,
    /// A second extension was asked for.
    WaitingExt2,
    /// The round was answered or given up, and its ping was sent.
    Barrier,
    /// Transactions were asked for, and some haven't come.
    Fetching,
    /// A sketch was sent.
    Sent,
    /// Its extension was sent.
    SentExt,
    /// A second extension was sent.
    SentExt2,
}
