//! What a node reconciles: ids with their short ids, kept so that a sketch of them is at hand.
#![tactic(auto)]

mod members;
mod set;
mod snapshot;
mod sums;

pub use set::ReconSet;
pub use snapshot::Snapshot;
