//! Nodes of the main network, and what is told of them.

ghost use Rattle.std.specs.Prelude.{length, IsTrue};
ghost use Rattle.id_rules.specs.Bytes.{is_tx_length};
ghost use Rattle.node_rules.specs.Invariant.{IsConfig};

use base_types::Bytes;
use id_rules::TX_LIMIT;
use node_rules::{Added, Config, End, Role};
use pair_rules::Side;
use pool_rules::Inserted;
use protocol_text_rules::MAIN_MAGIC;
use relay_node::Node;
use round_text::{put_phase_line, put_pool_line, put_report_lines, refused_text};
use std::alloc::Global;
use std::process::Abort;
use stream_text::shown_text;
use tx_pool::Pool;

/// What a node of the main network is made for: an opener of salt 1, or an accepter of salt 2. Both offer a second extension.
fn config_of(role: Role) -> Config
    ensures sound { IsConfig result }
{
    let salt = match role {
        Role::Opener => 1,
        Role::Accepter => 2,
    };
    Config {
        magic: MAIN_MAGIC,
        role,
        salt,
        nonce: 0,
        time: 0,
        top: 2,
    }
}

/// A copy of bytes that may be a transaction.
fn tx_of(rt: &impl Abort, alloc: Global, tx: &[u8]) -> Bytes
    ensures { IsTrue (is_tx_length (length result)) }
{
    assert!(rt; !tx.is_empty() && tx.len() <= TX_LIMIT);
    Bytes::from_vec(tx.to_vec(alloc).expect(rt, "memory"))
}

/// Puts a transaction into a pool that has room for it.
pub(crate) fn put(rt: &impl Abort, alloc: Global, pool: &mut Pool, tx: &[u8]) {
    let inserted = pool.insert(tx_of(rt, alloc, tx)).expect(rt, "memory");
    assert!(rt; matches!(inserted, Inserted::New));
}

/// What becomes of a transaction that is added to a node.
pub(crate) fn added(rt: &impl Abort, alloc: Global, node: &mut Node, tx: &[u8]) -> Added {
    node.add(tx_of(rt, alloc, tx)).expect(rt, "memory")
}

/// A pool of these transactions.
fn pool_of(rt: &impl Abort, alloc: Global, txs: &[&str]) -> Pool {
    let mut pool = Pool::empty(alloc);
    for tx in txs {
        put(rt, alloc, &mut pool, tx.as_bytes());
    }
    pool
}

/// A new node over a pool.
pub(crate) fn node_with(rt: &impl Abort, alloc: Global, role: Role, pool: Pool) -> Node {
    Node::new(alloc, config_of(role), pool).expect(rt, "memory")
}

/// A new node over these transactions.
pub(crate) fn node_over(rt: &impl Abort, alloc: Global, role: Role, txs: &[&str]) -> Node {
    let pool = pool_of(rt, alloc, txs);
    node_with(rt, alloc, role, pool)
}

/// Appends why a node has ended.
fn put_refused(rt: &impl Abort, alloc: Global, text: &mut Vec<u8>, end: &End) {
    let refused = refused_text(alloc, end).expect(rt, "memory");
    text.extend_from_slice(refused.as_slice())
        .expect(rt, "memory");
    text.push(b'\n').expect(rt, "memory");
}

/// What is told of a node: the lines of what waits to be sent, those of its reports, of its phase and of its pool, and why it
/// has ended.
pub(crate) fn told_of(rt: &impl Abort, alloc: Global, side: Side, node: &Node) -> Vec<u8> {
    let mut text = shown_text(alloc, node.outbox()).expect(rt, "frames");
    put_report_lines(&mut text, None, 1, node.reports()).expect(rt, "memory");
    put_phase_line(&mut text, side, node.phase()).expect(rt, "memory");
    put_pool_line(&mut text, None, node.pool().len()).expect(rt, "memory");
    if let Some(end) = node.end() {
        put_refused(rt, alloc, &mut text, &end);
    }
    text
}
