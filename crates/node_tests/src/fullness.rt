//! A node whose pool has as many transactions as it may have.

use crate::lines::{ACCEPTER_OFFER, OFFER, VERACK, VERSION, WTXIDRELAY, frames_of, text_of};
use crate::nodes::{added, node_with, put, told_of};
use node_rules::{Added, End, Role};
use pair_rules::Side;
use pool_rules::POOL_LIMIT;
use relay_node::{Node, Stop};
use std::alloc::Global;
use std::process::Abort;
use tx_pool::Pool;

/// A pool of the transactions of two bytes that are the numbers below the limit.
fn full_pool(rt: &impl Abort, alloc: Global) -> Pool {
    let mut pool = Pool::empty(alloc);
    for number in 0..POOL_LIMIT as u16 {
        put(rt, alloc, &mut pool, &number.to_le_bytes());
    }
    pool
}

/// A node over that pool has the last transaction, and has no room for one more.
fn has_no_room(rt: &impl Abort, alloc: Global, node: &mut Node) {
    assert!(rt; added(rt, alloc, node, &49_999u16.to_le_bytes()) == Added::Present);
    assert!(rt; added(rt, alloc, node, &50_000u16.to_le_bytes()) == Added::Full);
}

/// What a peer says first, with an announcement of the last transaction, and one of a transaction more: their ids are those
/// of the bytes 4f c3 and 50 c3.
const LAST: &[&str] = &[
    VERSION,
    WTXIDRELAY,
    OFFER,
    VERACK,
    "inv 5:c2995cc7210a344cacce43bb5b43bb885bde9b0fad8d390a063df579d0d61108",
];

const MORE: &[&str] = &["inv 5:48e484497ed0a35e83c5bdb53933cffecf4202956f0736be3454d143052405e5"];

/// What is told of the node.
const TOLD: &[&str] = &[
    VERSION,
    WTXIDRELAY,
    ACCEPTER_OFFER,
    VERACK,
    "phase b idle",
    "pool 50000",
    "refused pool full",
];

/// Hands it messages that it takes.
fn take_lines(rt: &impl Abort, alloc: Global, node: &mut Node, lines: &[&str]) {
    let frames = frames_of(rt, alloc, lines);
    node.take(frames.as_slice()).expect(rt, "no end");
}

/// It ends at messages, since its pool is full.
fn ends_full(rt: &impl Abort, alloc: Global, node: &mut Node, lines: &[&str]) {
    let frames = frames_of(rt, alloc, lines);
    assert!(rt; node.take(frames.as_slice()).err() == Some(Stop::Ended(End::PoolFull)));
}

#[test]
fn a_node_over_a_full_pool_has_no_room(rt: HostRuntime) {
    let alloc = rt.alloc();
    let pool = full_pool(&rt, alloc);
    let mut node = node_with(&rt, alloc, Role::Accepter, pool);
    has_no_room(&rt, alloc, &mut node);
    take_lines(&rt, alloc, &mut node, LAST);
    has_no_room(&rt, alloc, &mut node);
    ends_full(&rt, alloc, &mut node, MORE);
    let told = text_of(&rt, alloc, TOLD);
    assert_eq!(rt;
        told_of(&rt, alloc, Side::B, &node).as_slice(),
        told.as_slice()
    );
}
