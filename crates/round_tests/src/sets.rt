//! Sets of a few ids, and of random ones against sums made anew.

use crate::made::{Pair, id_of, put, set_of};
use base_types::Hash32;
use field_core::{Field, Gf32};
use recon_set::{ReconSet, Snapshot};
use sketch_core::SketchFault;
use std::alloc::Global;
use std::process::Abort;

/// Three ids, of which the first and the last have one short id.
fn three() -> [Pair; 3] {
    [(id_of(1), 5), (id_of(2), 7), (id_of(3), 5)]
}

/// The set of the three.
fn set_of_three(rt: &impl Abort, alloc: Global) -> ReconSet<Gf32> {
    set_of(rt, alloc, &three())
}

/// That the ids are these.
fn assert_ids(rt: &impl Abort, ids: &[Hash32], bytes: &[u8]) {
    assert_eq!(rt; ids.len(), bytes.len());
    for (id, byte) in ids.iter().zip(bytes) {
        assert!(rt; *id == id_of(*byte));
    }
}

/// That what stays of the running sums of a set begins with these.
fn assert_running(rt: &impl Abort, set: &ReconSet<Gf32>, front: &[Gf32]) {
    let running = set.running();
    assert_eq!(rt; running.len(), 4096);
    assert!(rt; running.starts_with(front));
}

/// That of three ids the second alone is sketched.
fn assert_sketched(rt: &impl Abort, snapshot: &Snapshot<Gf32>) {
    assert_eq!(rt; snapshot.len(), 3);
    let sketched = snapshot.sketched().expect(rt, "memory");
    assert_eq!(rt; sketched.as_slice(), [7].as_slice());
    let aside = snapshot.aside().expect(rt, "memory");
    assert_ids(rt, aside.as_slice(), &[1, 3]);
    assert!(rt; snapshot.by_short(5).is_none());
}

/// That a sketch of two sums is that of the short id 7.
fn assert_sketch(rt: &impl Abort, snapshot: &Snapshot<Gf32>) {
    let sketch = snapshot.sketch(2).expect(rt, "memory");
    assert_eq!(rt; sketch.sums(), [Gf32::new(7), Gf32::new(0x6b)].as_slice());
}

/// That all ids are there, and the second is found by its short id.
fn assert_members(rt: &impl Abort, snapshot: &Snapshot<Gf32>) {
    let all = snapshot.ids().expect(rt, "memory");
    assert_ids(rt, all.as_slice(), &[1, 2, 3]);
    assert!(rt; snapshot.by_short(6).is_none());
    assert!(rt; snapshot.by_short(7) == Some(id_of(2)));
}

/// That a sketch of this capacity is refused.
fn assert_refused(rt: &impl Abort, snapshot: &Snapshot<Gf32>, capacity: usize) {
    let fault = snapshot.sketch(capacity).err();
    assert_eq!(rt; fault, Some(SketchFault::CapacityOutOfRange(capacity)));
}

/// That a set of no id is empty, and has no sums.
fn assert_empty(rt: &impl Abort, set: &ReconSet<Gf32>) {
    assert!(rt; set.is_empty());
    assert!(rt; set.running().is_empty());
}

/// That the sums follow where the first id leaves, which it does once.
fn assert_first_leaves(rt: &impl Abort, set: &mut ReconSet<Gf32>) {
    assert!(rt; set.remove(&id_of(1)));
    assert!(rt; !set.remove(&id_of(1)));
    assert_running(rt, set, &[Gf32::new(2), Gf32::new(0x3e)]);
}

/// That no id and no sum is left where all leave.
fn assert_all_leave(rt: &impl Abort, set: &mut ReconSet<Gf32>) {
    set.remove_all(&[id_of(1), id_of(2), id_of(3)]);
    assert_eq!(rt; set.len(), 0);
    assert_running(rt, set, &[Gf32::new(0); 4096]);
    let left = set.take_snapshot();
    assert!(rt; left.is_empty());
    assert!(rt; set.running().is_empty());
}

#[test]
fn equal_short_ids_are_set_aside(rt: HostRuntime) {
    let empty = ReconSet::<Gf32>::empty(rt.alloc());
    assert_empty(&rt, &empty);
    let set = set_of_three(&rt, rt.alloc());
    assert_eq!(rt; set.len(), 3);
    assert!(rt; set.contains(&id_of(3)));
    let snapshot = set.as_snapshot();
    assert_sketched(&rt, snapshot);
    assert_members(&rt, snapshot);
    assert_sketch(&rt, snapshot);
    assert_refused(&rt, snapshot, 0);
    assert_refused(&rt, snapshot, 4097);
}

#[test]
fn sums_follow_the_ids_that_leave(rt: HostRuntime) {
    let mut set = set_of_three(&rt, rt.alloc());
    assert_running(&rt, &set, &[Gf32::new(7), Gf32::new(0x6b)]);
    assert_first_leaves(&rt, &mut set);
    assert_all_leave(&rt, &mut set);
}

/// That a peer that lacks these is told of these ids.
fn assert_announced(rt: &impl Abort, snapshot: &Snapshot<Gf32>, shorts: &[u32], bytes: &[u8]) {
    let ids = snapshot.announced(shorts).expect(rt, "memory");
    assert_ids(rt, ids.as_slice(), bytes);
}

#[test]
fn what_a_peer_lacks_is_announced(rt: HostRuntime) {
    let set = set_of_three(&rt, rt.alloc());
    let snapshot = set.as_snapshot();
    assert!(rt; snapshot.has_sketched(7));
    assert!(rt; !snapshot.has_sketched(5));
    assert_announced(&rt, snapshot, &[5, 9], &[1, 3]);
    assert_announced(&rt, snapshot, &[9, 7], &[1, 2, 3]);
}

/// The snapshot of three pairs.
#[tactic(auto, unfolding(pool_rules::specs::Pools::AreDistinctIds))]
fn snapshot_of_pairs(rt: &impl Abort, alloc: Global) -> Snapshot<Gf32> {
    let ids = [Hash32([1; 32]), Hash32([2; 32]), Hash32([3; 32])];
    let pairs = [(ids[0], 5), (ids[1], 7), (ids[2], 5)];
    Snapshot::of(alloc, &pairs).expect(rt, "memory")
}

#[test]
fn a_snapshot_of_pairs_makes_its_sums(rt: HostRuntime) {
    let snapshot = snapshot_of_pairs(&rt, rt.alloc());
    assert_sketched(&rt, &snapshot);
    assert_sketch(&rt, &snapshot);
}

/// Adds the first four odd powers of an element.
fn add_powers(sums: &mut [Gf32; 4], element: Gf32) {
    let square = element.mul(element);
    let mut power = element;
    for sum in sums.iter_mut() {
        *sum = sum.add(power);
        power = power.mul(square);
    }
}

/// The first four sums of odd powers of each short id that stands once.
fn sums_of_singles(pairs: &[Pair]) -> [Gf32; 4] {
    let mut sums = [Gf32::new(0); 4];
    for (_, short) in pairs {
        if pairs.iter().filter(|pair| pair.1 == *short).count() == 1 {
            add_powers(&mut sums, Gf32::new(*short));
        }
    }
    sums
}

/// Takes an id out of both, or else puts it into both.
fn change(
    rt: &impl Abort,
    set: &mut ReconSet<Gf32>,
    pairs: &mut Vec<Pair>,
    id: Hash32,
    short: u32,
) {
    if set.remove(&id) {
        pairs.retain(|pair| pair.0 != id);
    } else {
        put(rt, set, id, short);
        pairs.push((id, short)).expect(rt, "memory");
    }
}

#[test]
fn random_changes_keep_the_sums(rt: HostRuntime) {
    let mut set = ReconSet::<Gf32>::empty(rt.alloc());
    let mut pairs: Vec<Pair> = Vec::new(rt.alloc());
    let mut random = 1_u64;
    for _ in 0..4000 {
        random = random.wrapping_mul(0x5851_f42d_4c95_7f2d).wrapping_add(1);
        let id = id_of((random >> 40 & 31) as u8);
        let short = (random >> 56 & 15) as u32 + 1;
        change(&rt, &mut set, &mut pairs, id, short);
        assert_eq!(rt; set.len(), pairs.len());
        assert_running(&rt, &set, &sums_of_singles(pairs.as_slice()));
    }
}
