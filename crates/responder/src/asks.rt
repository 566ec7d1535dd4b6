//! Whether short ids may be asked for.

ghost use Rattle.std.specs.Prelude.{◌≡◌, [], None, OnOk, IfOk, IfErr, IsTrue};
ghost use Rattle.std.specs.List.Sorted.{IsNonDecreasing};
ghost use Rattle.pool_rules.specs.Snapshots.{sketched_shorts};
ghost use Rattle.node_rules.specs.Accepter.{ask_fault};
ghost use Rattle.responder.specs.Refusals.{IsFault};
ghost use Rattle.responder.specs.Asks.{AreSketchedOnce};

use crate::ResponderFault;
use base_types::OutOfMemory;
use field_core::Field;
use recon_set::Snapshot;
use std::alloc::Global;
use std::collections::BTreeSet;

/// Refuses the first ask, from the left, that isn't sketched or stood before. It costs in proportion to how many asks there
/// are, and to the logarithms of that and of how many members the snapshot has.
pub(crate) fn check_asks<F: Field>(
    alloc: Global,
    snapshot: &Snapshot<F>,
    asks: &[u32],
) -> Result<(), ResponderFault>
    ensures sound { OnOk result (ask_fault (sketched_shorts snapshot.now.members) [] asks.now ≡ None) }
    ensures refused { IfErr result (IsFault (ask_fault (sketched_shorts snapshot.now.members) [] asks.now)) }
{
    if are_sound(alloc, snapshot, asks)? {
        return Ok(());
    }
    check_in_order(alloc, snapshot, asks)
}

/// Whether each ask is sketched and stands once. A copy in ascending order is looked up in the order of the snapshot's own
/// tree, so that most look-ups of a long list find at hand what the one before them fetched.
fn are_sound<F: Field>(
    alloc: Global,
    snapshot: &Snapshot<F>,
    asks: &[u32],
) -> Result<bool, OutOfMemory>
    ensures { IfOk result (λ sound. IsTrue sound → ask_fault (sketched_shorts snapshot.now.members) [] asks.now ≡ None) }
{
    let mut sorted = asks.to_vec(alloc)?;
    sorted.sort_unstable();
    Ok(are_sketched_once(snapshot, sorted.as_slice()))
}

/// Whether each of some numbers in ascending order is sketched and stands once.
fn are_sketched_once<F: Field>(snapshot: &Snapshot<F>, sorted: &[u32]) -> bool
    requires { IsNonDecreasing sorted.now }
    ensures { IsTrue result → AreSketchedOnce (sketched_shorts snapshot.now.members) sorted.now }
{
    for i in 0..sorted.len() {
        if !snapshot.has_sketched(sorted[i]) {
            return false;
        }
        if i > 0 && sorted[i - 1] == sorted[i] {
            return false;
        }
    }
    true
}

/// The same, one ask after the other.
fn check_in_order<F: Field>(
    alloc: Global,
    snapshot: &Snapshot<F>,
    asks: &[u32],
) -> Result<(), ResponderFault>
    ensures sound { OnOk result (ask_fault (sketched_shorts snapshot.now.members) [] asks.now ≡ None) }
    ensures refused { IfErr result (IsFault (ask_fault (sketched_shorts snapshot.now.members) [] asks.now)) }
{
    let mut before = BTreeSet::new(alloc);
    for ask in asks {
        if !snapshot.has_sketched(*ask) {
            return Err(ResponderFault::UnknownShortId(*ask));
        }
        if !before.insert(*ask)? {
            return Err(ResponderFault::AskRepeated(*ask));
        }
    }
    Ok(())
}
