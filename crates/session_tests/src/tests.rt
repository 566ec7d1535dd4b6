//! Sessions over wires in memory, with what a peer of this project gives.

ghost use Rattle.std.specs.Prelude.{◌≡◌, true, false, Some, OnOk};
ghost use Rattle.erlay_base.specs.LinkFakes.{has_ended_input, told_link};
ghost use Rattle.erlay_base.specs.WireCalls.{IsUnused};
ghost use Rattle.session.specs.Sessions.{IsNew};

use base_types::Bytes;
use erlay_base::{Failed, MemWire, Wire};
use id_rules::TX_LIMIT;
use node_rules::{Config, End, Role};
use relay_node::Node;
use session::{SessionEnd, session};
use std::alloc::{AllocError, Global};
use std::process::Abort;
use std::test::Fail;
use tx_pool::Pool;
use wire_rules::{Name, Phase};

/// A new node of one transaction.
fn node_of(rt: &impl Abort, alloc: Global, role: Role, salt: u64, tx: &[u8]) -> Node
    ensures { IsNew result }
{
    let mut pool = Pool::empty(alloc);
    assert!(rt; !tx.is_empty() && tx.len() <= TX_LIMIT);
    let tx = Bytes::from_vec(tx.to_vec(alloc).expect(rt, "memory"));
    pool.insert(tx).expect(rt, "memory");
    let config = Config {
        magic: [0xF9, 0xBE, 0xB4, 0xD9],
        role,
        salt,
        nonce: 0,
        time: 0,
        top: 2,
    };
    Node::new(alloc, config, pool).expect(rt, "memory")
}

/// The opener of the tests, and its peer.
pub(crate) fn node_in(rt: &impl Abort, alloc: Global, role: Role) -> Node
    ensures { IsNew result }
{
    match role {
        Role::Opener => node_of(rt, alloc, role, 1, b"hello"),
        Role::Accepter => node_of(rt, alloc, role, 2, b"abc"),
    }
}

/// Moves what a node has to send into the other, and keeps a copy.
fn pass(rt: &impl Abort, sender: &mut Node, reader: &mut Node, sent: &mut Vec<u8>) {
    let waiting = sender.outbox();
    let len = waiting.len();
    sent.extend_from_slice(waiting).expect(rt, "memory");
    reader.take(waiting).expect(rt, "no end");
    sender.drain(len);
}

/// What both nodes give to each other in a round: the opener, and the accepter.
pub(crate) fn given(rt: &impl Abort, alloc: Global) -> (Vec<u8>, Vec<u8>) {
    let mut opener = node_in(rt, alloc, Role::Opener);
    let mut accepter = node_in(rt, alloc, Role::Accepter);
    let mut by_opener = Vec::new(alloc);
    let mut by_accepter = Vec::new(alloc);
    for turn in 0..8 {
        pass(rt, &mut opener, &mut accepter, &mut by_opener);
        pass(rt, &mut accepter, &mut opener, &mut by_accepter);
        if turn == 0 {
            assert!(rt; opener.begin_round().expect(rt, "memory"));
        }
    }
    (by_opener, by_accepter)
}

/// A wire with a link over which the first `len` of the bytes come. The call with the number `failing` fails, where it isn't 0;
/// the first one makes the link.
fn linked(
    alloc: Global,
    bytes: &[u8],
    len: usize,
    cut: usize,
    failing: u64,
) -> Result<MemWire, Fail> {
    let mut calls = Vec::new(alloc);
    if failing > 0 {
        calls.push(failing)?;
    }
    let coming = bytes[..len.min(bytes.len())].to_vec(alloc)?;
    Ok(MemWire::new(alloc, coming, cut.max(1), calls))
}

/// Makes the first link of a wire: an opener connects, an accepter waits for one.
fn link(wire: &mut MemWire, role: Role) -> Result<(), Failed>
    ensures linked { OnOk result (wire.new.is_linked ≡ true) }
    ensures input { OnOk result (has_ended_input wire.new.is_linked wire.new.is_over ≡ false) }
    ensures unused { OnOk result (IsUnused (Some (told_link wire.new))) }
{
    match role {
        Role::Opener => wire.connect("peer"),
        Role::Accepter => {
            wire.listen("here")?;
            wire.accept()
        }
    }
}

/// The answer of a session over a new link, how many transactions the node then has, and how many reports.
fn run(
    rt: &impl Abort,
    alloc: Global,
    wire: &mut MemWire,
    role: Role,
    rounds: u32,
) -> (SessionEnd, usize, usize) {
    let mut node = node_in(rt, alloc, role);
    let Ok(()) = link(wire, role) else {
        return (SessionEnd::LinkFault, 0, 0);
    };
    let end = session(alloc, wire, &mut node, rounds);
    (end, node.pool().len(), node.reports().len())
}

#[test]
fn a_session_of_an_opener(rt: HostRuntime) -> Result<(), Fail> {
    let alloc = rt.alloc();
    let (sent, coming) = given(&rt, alloc);
    let all = coming.len();
    let misplaced = End::Misplaced {
        command: Name::Sketch,
        phase: Phase::Idle,
    };
    // how many bytes come, the bytes of a call at most, the call that fails, rounds, and what comes of it
    for (len, cut, failing, rounds, end, pool, reports) in [
        (all, 1usize, 0, 1, SessionEnd::Done, 2, 1),
        (all, 7, 0, 1, SessionEnd::Done, 2, 1),
        (all, 1, 0, 0, SessionEnd::Done, 1, 0),
        (all, 1, 0, 2, SessionEnd::Truncated(Phase::Waiting), 2, 1),
        (all, 1_000_000, 0, 1, SessionEnd::Refused(misplaced), 1, 0),
        (0, 1, 0, 1, SessionEnd::Truncated(Phase::Greeting), 1, 0),
        (203, 1, 0, 1, SessionEnd::Truncated(Phase::Waiting), 1, 0),
        (all, 1, 2, 1, SessionEnd::LinkFault, 1, 0),
        (all, 1, 130, 1, SessionEnd::LinkFault, 1, 0),
    ] {
        let mut wire = linked(alloc, coming.as_slice(), len, cut, failing)?;
        let told = run(&rt, alloc, &mut wire, Role::Opener, rounds);
        assert_eq!(rt;
            told,
            (end, pool, reports),
            "{len} {cut} {failing} {rounds}"
        );
        if rounds == 1 {
            let front = sent.get(..wire.sent().len());
            assert_eq!(rt; front, Some(wire.sent()), "{len} {cut} {failing}");
        }
    }
    Ok(())
}

#[test]
fn a_session_of_an_accepter(rt: HostRuntime) -> Result<(), Fail> {
    let alloc = rt.alloc();
    let (coming, sent) = given(&rt, alloc);
    let all = coming.len();
    // how many bytes come, the bytes of a call at most, the call that fails, and what comes of it
    for (len, cut, failing, end, pool, reports) in [
        (all, 1usize, 0, SessionEnd::Done, 2, 1),
        (all, 1_000_000, 0, SessionEnd::Done, 2, 1),
        // the opener's last message is its request, behind the transaction that was asked for
        (
            all.saturating_sub(1),
            1,
            0,
            SessionEnd::Truncated(Phase::Idle),
            2,
            1,
        ),
        (119, 1, 0, SessionEnd::Truncated(Phase::Greeted), 1, 0),
        (0, 1, 0, SessionEnd::Truncated(Phase::Greeting), 1, 0),
        (all, 1, 3, SessionEnd::LinkFault, 1, 0),
    ] {
        let mut wire = linked(alloc, coming.as_slice(), len, cut, failing)?;
        let told = run(&rt, alloc, &mut wire, Role::Accepter, 1);
        assert_eq!(rt; told, (end, pool, reports), "{len} {cut} {failing}");
        let front = sent.get(..wire.sent().len());
        assert_eq!(rt; front, Some(wire.sent()), "{len} {cut} {failing}");
    }
    Ok(())
}
