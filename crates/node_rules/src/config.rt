//! What a node is made for.

/// The side of a connection that a node is on. The opener starts rounds.
#[derive(Clone, Copy, Debug, PartialEq, Eq)]
pub enum Role {
    Opener,
    Accepter,
}

/// What a node is made for.
#[derive(Clone, Copy, Debug)]
pub struct Config {
    /// The network's first bytes of each frame.
    pub magic: [u8; 4],
    pub role: Role,
    /// This side's salt of the short ids.
    pub salt: u64,
    /// The nonce and the time of its `version`.
    pub nonce: u64,
    pub time: i64,
    /// The highest version of reconciliation that it offers: 1 or 2. It is how many extensions of a sketch a round may have,
    /// where the peer offers no less.
    pub top: u32,
}
