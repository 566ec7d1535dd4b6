//! What may happen to two nodes.

use base_types::Bytes;

/// What may happen to two nodes and the wires between them.
#[derive(Debug, Drop)]
pub enum Event {
    /// The first so many bytes on the wire from a reach b, or all where there are fewer.
    DeliverAb(u64),
    /// The same from b to a.
    DeliverBa(u64),
    /// A transaction is added to a.
    AddA(Bytes),
    /// A transaction is added to b.
    AddB(Bytes),
    /// a begins a round, where it may.
    Round,
}
