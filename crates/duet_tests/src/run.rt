//! A script as it runs, and what has to hold behind it.

use crate::counts::Counts;
use crate::pairs::{begin, deliver};
use base_types::{Hash32, Hashes};
use duet::Duet;
use pair_rules::Side;
use pool_rules::Report;
use relay_node::Node;
use std::process::Abort;
use tx_pool::Pool;
use wire_rules::Phase;

/// Two nodes in a script.
#[derive(Drop)]
pub(crate) struct Run {
    pub(crate) duet: Duet,
    /// How many rounds were begun.
    pub(crate) begun: usize,
    /// The ids of both pools as the last round was begun.
    pub(crate) of_a: Hashes,
    pub(crate) of_b: Hashes,
}

/// Two new nodes.
pub(crate) fn run_of(rt: &impl Abort, duet: Duet) -> Run {
    Run {
        of_a: ids_of(rt, duet.a()),
        of_b: ids_of(rt, duet.b()),
        begun: 0,
        duet,
    }
}

fn ids_of(rt: &impl Abort, node: &Node) -> Hashes {
    node.pool().ids().expect(rt, "memory")
}

/// The opener begins a round, where it is idle.
pub(crate) fn try_round(rt: &impl Abort, run: &mut Run) {
    if run.duet.a().phase() == Phase::Idle {
        run.of_a = ids_of(rt, run.duet.a());
        run.of_b = ids_of(rt, run.duet.b());
        run.begun = run.begun.saturating_add(1);
        begin(rt, &mut run.duet);
        assert!(rt; run.duet.a().phase() == Phase::Waiting);
    } else {
        let before = run.duet.a().phase();
        begin(rt, &mut run.duet);
        assert!(rt; run.duet.a().phase() == before);
    }
}

/// All that waits is delivered, from a and from b, at most 16 times both.
pub(crate) fn drain(rt: &impl Abort, duet: &mut Duet) {
    for _ in 0..16 {
        deliver(rt, duet, Side::A, u64::MAX);
        deliver(rt, duet, Side::B, u64::MAX);
    }
    assert!(rt; duet.drained());
}

/// A node has not ended, is between rounds, and has a report of each round.
fn is_finished(rt: &impl Abort, node: &Node, begun: usize) {
    assert!(rt; node.end().is_none());
    assert!(rt; node.phase() == Phase::Idle);
    assert!(rt; node.held() == 0 && node.open_wants() == 0);
    assert_eq!(rt; node.reports().len(), begun);
}

/// Both sides tell the same of each round. It is counted.
fn are_alike(rt: &impl Abort, a: &[Report], b: &[Report], counts: &mut Counts) {
    for (of_a, of_b) in a.iter().zip(b) {
        assert!(rt; of_a.ending == of_b.ending && of_a.capacity == of_b.capacity);
        counts.count(of_a.ending);
    }
}

/// A pool has all these.
fn has_all(rt: &impl Abort, pool: &Pool, ids: &[Hash32]) {
    for id in ids {
        assert!(rt; pool.contains(id));
    }
}

/// Both pools have what either had as the last round was begun.
fn have_both(rt: &impl Abort, run: &Run, node: &Node) {
    has_all(rt, node.pool(), run.of_a.as_slice());
    has_all(rt, node.pool(), run.of_b.as_slice());
}

/// What has to hold of two nodes once nothing is on the way. The endings of the rounds are counted.
pub(crate) fn check(rt: &impl Abort, run: &Run, counts: &mut Counts) {
    is_finished(rt, run.duet.a(), run.begun);
    is_finished(rt, run.duet.b(), run.begun);
    are_alike(rt, run.duet.a().reports(), run.duet.b().reports(), counts);
    have_both(rt, run, run.duet.a());
    have_both(rt, run, run.duet.b());
}
