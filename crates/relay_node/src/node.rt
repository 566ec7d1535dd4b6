//! A node over the bytes of its connection.

ghost use Rattle.std.specs.Prelude.{◌≡◌, ◌+◌, ◌≤◌, ◌<◌, true, false, [], length, drop, IsTrue, IsSome, IsOk, IfOk, OnErr};
ghost use Rattle.id_rules.specs.Bytes.{is_tx_length};
ghost use Rattle.wire_rules.specs.Layout.{wire_bytes};
ghost use Rattle.wire_rules.specs.declared.limits.TheConstants.{HEADER_LEN, PAYLOAD_LIMIT};
ghost use Rattle.node_rules.specs.Additions.{on_addition};
ghost use Rattle.node_rules.specs.Handshake.{opening_messages};
ghost use Rattle.node_rules.specs.Invariant.{IsConfig, IsNode};
ghost use Rattle.node_rules.specs.Memory.{view_behind_addition, view_behind_start};
ghost use Rattle.node_rules.specs.State.{open_wants, opening_state};
ghost use Rattle.node_rules.specs.Steps.{on_start};
ghost use Rattle.relay_node.specs.Answers.{IsTaken};

use crate::frames::is_tx;
use crate::link::Link;
use base_types::{Bytes, OutOfMemory};
use conversation::{Conversation, Stop};
use node_rules::{Added, Config, End};
use p2p_frame::Feeder;
use pool_rules::{POOL_LIMIT, Report};
use std::alloc::Global;
use std::marker::Model;
use tx_pool::Pool;
use wire_rules::Phase;

/// A node over the bytes of its connection, whatever its peer sends. A contract sees its state, the bytes that wait to be
/// sent, and whether memory was refused while it took bytes.
#[derive(Drop)]
pub struct Node {
    alloc: Global,
    conversation: Conversation,
    link: Link,
}

impl Model for Node {
    ghost use Rattle.node_rules.specs.State.{NodeView};
    ghost use Rattle.relay_node.specs.Views.{IsLinked, view_at};

    ghost Value = { NodeView };

    ghost view = { λ n. view_at n.conversation n.link };

    ghost invariant = { λ n. IsLinked n.conversation n.link };
}

impl Node {
    /// A new node with this pool. An opener has its `version` to send.
    pub fn new(alloc: Global, config: Config, pool: Pool) -> Result<Node, OutOfMemory>
        requires { IsConfig config }
        ensures { IfOk result (λ node. node ≡ record {
          state = opening_state config pool;
          outbox = wire_bytes config.magic (opening_messages config);
          out_of_memory = false;
        }) }
    {
        prove!(pool.len() <= POOL_LIMIT);
        let conversation = Conversation::new(alloc, config, pool)?;
        Ok(Node {
            alloc,
            conversation,
            link: Link::Open(Feeder::new(alloc, config.magic)),
        })
    }

    /// Takes a piece of the peer's stream: every message that stands whole in what has come is handled, in order, and the
    /// answers wait to be sent. The first fault of the stream, or the first message that doesn't belong, ends the node.
    /// Behind that, and once memory was refused, it takes nothing more, and gives the same answer.
    pub fn take(&mut self, bytes: &[u8]) -> Result<(), Stop>
        ensures taken { IsTaken self.old bytes.now self.new result }
        ensures short { length self.new.state.inbox.unread < HEADER_LEN + PAYLOAD_LIMIT }
    {
        self.link.take(self.alloc, &mut self.conversation, bytes)
    }

    /// Adds a transaction of 1 to `TX_LIMIT` bytes. Where memory runs out, nothing changes.
    pub fn add(&mut self, tx: Bytes) -> Result<Added, OutOfMemory>
        requires { IsTrue (is_tx_length (length tx)) }
        ensures told { IfOk result (λ added. added ≡ (on_addition self.old.state tx).added) }
        ensures ok { IfOk result (λ _. (self.old.out_of_memory ≡ false) × (self.new ≡ view_behind_addition self.old tx)) }
        ensures err { OnErr result (self.new ≡ self.old) }
        ensures ended { IsSome self.old.state.ended → IsOk result }
    {
        match &self.link {
            Link::Open(_) => {
                prove!(is_tx(tx.as_slice()));
                self.conversation.add(tx)
            }
            Link::Ended { .. } => Ok(Added::Ended),
            Link::OutOfMemory => Err(OutOfMemory),
        }
    }

    /// Begins a round, where the node is an opener between rounds. It tells whether. Where memory runs out, nothing changes.
    pub fn begin_round(&mut self) -> Result<bool, OutOfMemory>
        ensures told { IfOk result (λ begun. begun ≡ (on_start self.old.state).begun) }
        ensures ok { IfOk result (λ _. (self.old.out_of_memory ≡ false) × (self.new ≡ view_behind_start self.old)) }
        ensures err { OnErr result (self.new ≡ self.old) }
        ensures ended { IsSome self.old.state.ended → IsOk result }
    {
        match &self.link {
            Link::Open(_) => self.conversation.begin_round(),
            Link::Ended { .. } => Ok(false),
            Link::OutOfMemory => Err(OutOfMemory),
        }
    }

    /// The bytes that wait to be sent.
    pub fn outbox(&self) -> &[u8]
        ensures { result.now ≡ self.now.outbox }
    {
        self.conversation.outbox()
    }

    /// The first `n` of them are sent.
    pub fn drain(&mut self, n: usize)
        requires { n ≤ length self.old.outbox }
        ensures { self.new ≡ record self.old { outbox = drop n self.old.outbox } }
    {
        self.conversation.drain(n);
    }

    /// What is told of the rounds that are over, in order.
    pub fn reports(&self) -> &[Report]
        ensures { result.now ≡ self.now.state.machine.reports }
    {
        self.conversation.reports()
    }

    /// The transactions that it holds.
    pub fn pool(&self) -> &Pool
        ensures { result.now ≡ self.now.state.pool }
    {
        self.conversation.pool()
    }

    /// Where it stands.
    pub fn phase(&self) -> Phase
        ensures phase { result ≡ self.now.state.machine.phase }

        // What holds of every node: until memory is refused it is one by the definitions, and what has stopped holds no bytes.
        ensures node { self.now.out_of_memory ≡ false → IsNode self.now.state }
        ensures ended { IsSome self.now.state.ended → self.now.state.inbox.unread ≡ [] }
        ensures starved { self.now.out_of_memory ≡ true → self.now.state.inbox.unread ≡ [] }
    {
        self.conversation.phase()
    }

    /// Whether the peer reconciles nothing.
    pub fn plain(&self) -> bool
        ensures { result ≡ self.now.state.plain }
    {
        self.conversation.is_plain()
    }

    /// How many ids were announced by the peer and haven't come.
    pub fn open_wants(&self) -> usize
        ensures { result ≡ length (open_wants self.now.state) }
    {
        match &self.link {
            Link::Open(_) | Link::Ended { .. } => self.conversation.open_wants(),
            Link::OutOfMemory => 0,
        }
    }

    /// How many bytes were received of which no message is whole.
    pub fn held(&self) -> usize
        ensures { result ≡ length self.now.state.inbox.unread }
    {
        match &self.link {
            Link::Open(feeder) => feeder.held(),
            Link::Ended { .. } | Link::OutOfMemory => 0,
        }
    }

    /// Why it has ended, where it has.
    pub fn end(&self) -> Option<End>
        ensures { result ≡ self.now.state.ended }
    {
        match &self.link {
            Link::Ended { end, .. } => Some(*end),
            Link::Open(_) | Link::OutOfMemory => None,
        }
    }
}
