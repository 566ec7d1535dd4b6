//! How a session ends.

use node_rules::End;
use wire_rules::Phase;

/// How a session of a node over a wire ended.
#[derive(Clone, Copy, Debug, PartialEq, Eq)]
pub enum SessionEnd {
    /// An opener has begun all its rounds and finished them, and all was sent; or an accepter's input ended between rounds,
    /// with nothing unread and nothing wanted.
    Done,
    /// The node ended.
    Refused(End),
    /// The input ended before that, in this phase.
    Truncated(Phase),
    /// A call of the wire failed.
    LinkFault,
    /// As many bytes were received as a session may receive, and it isn't done.
    SessionLimit,
    OutOfMemory,
}
