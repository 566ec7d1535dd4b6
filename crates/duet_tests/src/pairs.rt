//! Pairs of new nodes of the main network, and the events at them.

ghost use Rattle.std.specs.Prelude.{◌≡◌, [], length, IsTrue};
ghost use Rattle.id_rules.specs.Bytes.{are_bytes, is_tx_length};
ghost use Rattle.node_rules.specs.Invariant.{IsConfig};
ghost use Rattle.pair_rules.specs.World.{is_event};
ghost use Rattle.protocol_text_rules.specs.declared.limits.TheConstants.{MAIN_MAGIC};
ghost use Rattle.duet.specs.Views.{new_node};

use base_types::Bytes;
use duet::Duet;
use id_rules::TX_LIMIT;
use node_rules::{Config, Role};
use pair_rules::{Event, Side};
use protocol_text_rules::MAIN_MAGIC;
use relay_node::Node;
use std::alloc::Global;
use std::process::Abort;
use tx_pool::Pool;

/// The highest versions of reconciliation that the opener and the accepter offer.
#[derive(Clone, Copy)]
pub(crate) struct Tops {
    pub(crate) a: u32,
    pub(crate) b: u32,
}

/// What a node is made for.
fn config_of(rt: &impl Abort, role: Role, salt: u64, top: u32) -> Config
    ensures sound { IsConfig result }
    ensures role { result.role ≡ role }
    ensures magic { result.magic ≡ MAIN_MAGIC }
{
    assert!(rt; top == 1 || top == 2);
    Config {
        magic: MAIN_MAGIC,
        role,
        salt,
        nonce: 0,
        time: 0,
        top,
    }
}

/// A new node with an empty pool.
fn node_of(rt: &impl Abort, alloc: Global, config: Config) -> Node
    requires { IsConfig config }
    ensures { result ≡ new_node config [] }
{
    Node::new(alloc, config, Pool::empty(alloc)).expect(rt, "memory")
}

/// Two new nodes that offer these versions.
pub(crate) fn pair_of(rt: &impl Abort, alloc: Global, tops: Tops) -> Duet {
    let opener = config_of(rt, Role::Opener, 1, tops.a);
    let accepter = config_of(rt, Role::Accepter, 2, tops.b);
    let a = node_of(rt, alloc, opener);
    let b = node_of(rt, alloc, accepter);
    Duet::new(alloc, a, b)
}

/// A copy of bytes that may be a transaction.
fn tx_of(rt: &impl Abort, alloc: Global, tx: &[u8]) -> Bytes
    ensures sized { IsTrue (is_tx_length (length result)) }
    ensures bytes { IsTrue (are_bytes result) }
{
    assert!(rt; !tx.is_empty() && tx.len() <= TX_LIMIT);
    Bytes::from_vec(tx.to_vec(alloc).expect(rt, "memory"))
}

/// The addition of a transaction to a side.
#[tactic(auto, unfolding(pair_rules::specs::World::is_event))]
fn addition(rt: &impl Abort, alloc: Global, side: Side, tx: &[u8]) -> Event
    ensures { IsTrue (is_event result) }
{
    let tx = tx_of(rt, alloc, tx);
    match side {
        Side::A => Event::AddA(tx),
        Side::B => Event::AddB(tx),
    }
}

/// Lets an event happen, in which no node ends.
fn happen(rt: &impl Abort, duet: &mut Duet, event: Event)
    requires { IsTrue (is_event event) }
{
    duet.run(&[event]).expect(rt, "no end");
}

/// The first so many bytes on the wire from a side reach the other, or all where there are fewer.
#[tactic(auto, unfolding(pair_rules::specs::World::is_event))]
pub(crate) fn deliver(rt: &impl Abort, duet: &mut Duet, from: Side, n: u64) {
    match from {
        Side::A => happen(rt, duet, Event::DeliverAb(n)),
        Side::B => happen(rt, duet, Event::DeliverBa(n)),
    }
}

/// Adds the transaction of a number to a side.
pub(crate) fn add(rt: &impl Abort, alloc: Global, duet: &mut Duet, side: Side, number: u64) {
    let event = addition(rt, alloc, side, &number.to_le_bytes());
    happen(rt, duet, event);
}

/// The opener begins a round, where it may.
#[tactic(auto, unfolding(pair_rules::specs::World::is_event))]
pub(crate) fn begin(rt: &impl Abort, duet: &mut Duet) {
    happen(rt, duet, Event::Round);
}
