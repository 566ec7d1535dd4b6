//! What becomes of a session and its pool.

use session_rules::SessionEnd;

/// What became of a session and its pool.
#[derive(Debug, Drop)]
pub enum Outcome {
    /// The session is done, and the pool was saved. What is told of it: the lines of its rounds, and that of its pool.
    Saved(Vec<u8>),
    /// It is done, but the pool couldn't be saved.
    Unsaved,
    /// It ended otherwise: never `Done`, and never `OutOfMemory`. No pool was saved.
    Ended(SessionEnd),
}
