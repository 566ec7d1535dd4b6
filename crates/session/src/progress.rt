//! How far a session has come.

/// How far a session has come.
#[derive(Drop)]
pub(crate) struct Progress {
    /// Whether its node is the opener.
    pub opens: bool,
    /// How many rounds it may still begin.
    pub left: u32,
    /// How many bytes it has received.
    pub received: u64,
}
