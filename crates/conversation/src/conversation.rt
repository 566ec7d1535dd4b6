//! A node's conversation with its peer, in whole messages.

ghost use Rattle.std.specs.Prelude.{◌≡◌, ◌≤◌, length, drop, true, IsTrue, IfOk};
ghost use Rattle.id_rules.specs.Bytes.{is_tx_length};
ghost use Rattle.wire_rules.specs.Layout.{wire_bytes};
ghost use Rattle.wire_rules.specs.Limits.{IsMessage};
ghost use Rattle.wire_rules.specs.declared.message.Message.TheVariants as message;
ghost use Rattle.node_rules.specs.Handshake.{opening_messages};
ghost use Rattle.node_rules.specs.Invariant.{IsConfig, IsNode};
ghost use Rattle.node_rules.specs.State.{no_wants, open_wants, opening_state};
ghost use Rattle.node_rules.specs.Stages.{is_after_handshake};
ghost use Rattle.node_rules.specs.Steps.{in_relay};
ghost use Rattle.conversation.specs.Handled.{IsHandled, IsStep};
ghost use Rattle.conversation.specs.Views.{view_of};

use crate::handshake::opening_of;
use crate::peer::Peer;
use crate::stage::Stage;
use crate::stop::Stop;
use base_types::OutOfMemory;
use clmul_lanes::Lane32;
use node_rules::{Config, End};
use outbox::Outbox;
use pool_rules::Report;
use recon_set::ReconSet;
use relay_store::Store;
use std::alloc::Global;
use std::marker::Model;
use tx_pool::Pool;
use wire_rules::{Message, Name, Phase};

/// A node's conversation with its peer. A contract sees the node, which has received no bytes, and what it has to send.
#[derive(Drop)]
pub struct Conversation {
    pub(crate) alloc: Global,
    pub(crate) config: Config,
    pub(crate) peer: Peer,
    pub(crate) stage: Stage,
    pub(crate) set: ReconSet<Lane32>,
    pub(crate) store: Store,
    pub(crate) outbox: Outbox,
}

impl Model for Conversation {
    ghost use Rattle.std.specs.Prelude.{◌≡◌};
    ghost use Rattle.node_rules.specs.State.{NodeView};
    ghost use Rattle.conversation.specs.Views.{IsStageOf, peer_of, state_of, view_of};

    ghost Value = { NodeView };

    ghost view = { λ c. view_of (state_of c.config c.stage c.set c.store (peer_of c.peer)) c.outbox.bytes };

    ghost invariant = { λ c. IsStageOf c.config.role c.stage × (c.outbox.magic ≡ c.config.magic) };
}

impl Conversation {
    /// A new conversation. What it has to say first waits to be sent.
    pub fn new(alloc: Global, config: Config, pool: Pool) -> Result<Conversation, OutOfMemory>
        requires { IsConfig config }
        ensures { IfOk result (λ c. c ≡ view_of (opening_state config pool) (wire_bytes config.magic (opening_messages config))) }
    {
        let messages = opening_of(alloc, &config)?;
        let mut outbox = Outbox::new(alloc, config.magic);
        outbox.push_all(messages.as_slice())?;
        Ok(Conversation {
            alloc,
            config,
            peer: Peer {
                relays_by_id: false,
                offer: None,
            },
            stage: Stage::Greeting,
            set: ReconSet::empty(alloc),
            store: Store::new(alloc, pool),
            outbox,
        })
    }

    /// What the node is made for.
    pub fn config(&self) -> &Config
        ensures { result.now ≡ self.now.state.config }
    {
        &self.config
    }

    /// The transactions that it holds.
    pub fn pool(&self) -> &Pool
        ensures { result.now ≡ self.now.state.pool }
    {
        self.store.pool()
    }

    /// Where it stands.
    pub fn phase(&self) -> Phase
        ensures { result ≡ self.now.state.machine.phase }
    {
        match &self.stage {
            Stage::Greeting => Phase::Greeting,
            Stage::Greeted => Phase::Greeted,
            Stage::Opener(machine) => machine.phase(),
            Stage::Accepter(machine) => machine.phase(),
        }
    }

    /// Whether the peer reconciles nothing.
    pub fn is_plain(&self) -> bool
        ensures { result ≡ self.now.state.plain }
    {
        match &self.stage {
            Stage::Greeting | Stage::Greeted => false,
            Stage::Opener(_) | Stage::Accepter(_) => self.peer.offer.is_none(),
        }
    }

    /// What is told of the rounds that are over, in order.
    pub fn reports(&self) -> &[Report]
        ensures { result.now ≡ self.now.state.machine.reports }
    {
        match &self.stage {
            Stage::Greeting | Stage::Greeted => &[],
            Stage::Opener(machine) => machine.reports(),
            Stage::Accepter(machine) => machine.reports(),
        }
    }

    /// The bytes that wait to be sent.
    pub fn outbox(&self) -> &[u8]
        ensures { result.now ≡ self.now.outbox }
    {
        self.outbox.as_slice()
    }

    /// The first `n` of them are sent.
    pub fn drain(&mut self, n: usize)
        requires { n ≤ length self.old.outbox }
        ensures { self.new ≡ record self.old { outbox = drop n self.old.outbox } }
    {
        self.outbox.drain(n);
    }

    /// How many ids were announced by the peer and haven't come.
    pub fn open_wants(&self) -> usize
        requires { IsNode self.now.state }
        ensures { result ≡ length (open_wants self.now.state) }
    {
        self.store.open_wants()
    }

    /// Lets go of what is wanted.
    pub fn clear_wants(&mut self)
        ensures { self.new ≡ record self.old { state = record self.old.state { wants = no_wants } } }
    {
        self.store.clear_wants();
    }

    /// Takes a whole message. Behind an end nothing else has changed.
    pub fn take(&mut self, message: Message) -> Result<(), Stop>
        requires node { IsNode self.old.state }
        requires message { IsMessage message }
        ensures { IsHandled message self.old self.new result }
    {
        match self.phase() {
            Phase::Greeting => self.in_greeting(&message),
            Phase::Greeted => self.in_greeted(&message),
            _ => self.in_relay(&message),
        }
    }

    /// Takes a message behind the handshake.
    #[tactic(auto, unfolding(node_rules::specs::Steps::in_relay))]
    fn in_relay(&mut self, message: &Message) -> Result<(), Stop>
        requires node { IsNode self.old.state }
        requires relaying { is_after_handshake self.old.state.machine.phase ≡ true }
        requires message { IsMessage message.now }
        ensures { IsStep (in_relay self.old.state message.now) self.old self.new result }
    {
        match message {
            Message::ReqRecon { size, q } => self.on_reqrecon(*size, *q),
            Message::Sketch(skdata) => self.on_sketch(skdata.as_slice()),
            Message::ReqSketchExt => self.on_reqsketchext(),
            Message::ReconcilDiff { success, asks } => self.on_reconcildiff(*success, asks),
            Message::Inv(entries) => self.on_inv(entries),
            Message::GetData(entries) => self.on_getdata(entries),
            Message::NotFound(entries) => self.on_notfound(entries),
            Message::Tx(tx) => self.on_tx(tx.as_slice()),
            Message::Ping(number) => self.on_ping(*number),
            Message::Pong(number) => self.on_pong(*number),
            _ => self.refuse(message),
        }
    }
}
