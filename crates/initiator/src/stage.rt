//! Where an opener stands in its rounds.

use field_core::Field;
use recon_set::Snapshot;
use sketch_core::Sketch;

/// A round of which an extension is waited for.
#[derive(Drop)]
pub(crate) struct Pending<F: Field> {
    /// What the round took of the set.
    pub(crate) snapshot: Snapshot<F>,
    /// The capacity of the first sketch.
    pub(crate) capacity: u32,
    /// The peer's sums so far.
    pub(crate) sketch: Sketch<F>,
    /// How many extensions were asked for.
    pub(crate) extensions: u32,
}

/// Where an opener stands in its rounds.
#[derive(Drop)]
pub(crate) enum Stage<F: Field> {
    /// No round is under way.
    Idle,
    /// A round was asked for.
    Waiting,
    /// An extension of its sketch was asked for.
    Extending(Pending<F>),
    /// The round is over, and its ping was sent.
    Barrier,
    /// Transactions were asked for.
    Fetching,
}
