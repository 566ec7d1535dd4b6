//! How far an exchange came.

use pool_session::{Outcome, PoolStop};

/// How far an exchange came.
#[derive(Drop)]
pub(crate) enum Course {
    /// The pool wasn't loaded.
    Unloaded(PoolStop),
    /// The wire didn't connect, or didn't listen.
    Unlinked,
    /// That it listens couldn't be written.
    Unannounced,
    /// No other node's connection was accepted.
    Unaccepted,
    /// Memory ran out in the session, or for what is to be saved and written behind it.
    Starved,
    /// The session is over.
    Over(Outcome),
}
