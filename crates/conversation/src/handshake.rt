//! The handshake: `version`, `wtxidrelay` (BIP 339), `sendtxrcncl` (BIP 330) and `verack`.

ghost use Rattle.std.specs.Prelude.{◌≡◌, ◌++◌, ◌∷◌, ◌≤◌, [], length, true, is_none, int_lt, option_map, pos, Some, None, IfOk};
ghost use Rattle.std.specs.declared.option.Option.{Option};
ghost use Rattle.pool_rules.specs.Pools.{AreDistinctIds};
ghost use Rattle.pool_rules.specs.Snapshots.{members};
ghost use Rattle.pool_rules.specs.declared.limits.TheConstants.{POOL_LIMIT};
ghost use Rattle.short_ids.specs.States.{pair_of};
ghost use Rattle.wire_rules.specs.Commands.{name_of};
ghost use Rattle.wire_rules.specs.Limits.{IsMessage};
ghost use Rattle.wire_rules.specs.declared.message.Message.TheVariants as message;
ghost use Rattle.wire_rules.specs.declared.phase.Phase.TheVariants as phase;
ghost use Rattle.node_rules.specs.Handshake.{has_no_relay, in_greeted, in_greeting, introduction, level_of, on_sendtxrcncl, on_unexpected, on_verack, on_version, on_wtxidrelay, opening_messages, own_version, reply};
ghost use Rattle.node_rules.specs.Invariant.{IsNode};
ghost use Rattle.node_rules.specs.State as state;
ghost use Rattle.node_rules.specs.State.{first_requests};
ghost use Rattle.node_rules.specs.Turns.{unchanged};
ghost use Rattle.responder.specs.Machines.{idle_machine};
ghost use Rattle.conversation.specs.Handled.{IsStep};
ghost use Rattle.conversation.specs.Views.{IsStageOf, is_plain_at, machine_at, offer_of, requests_at};

use crate::conversation::Conversation;
use crate::peer::Offer;
use crate::stage::Stage;
use crate::stop::Stop;
use base_types::{Bytes, Hash32, OutOfMemory};
use clmul_lanes::Lane32;
use initiator::Initiator;
use inventories::announcement_of;
use node_rules::{Config, End, Role};
use pool_rules::FIRST_COEFFICIENT;
use recon_set::ReconSet;
use responder::Responder;
use short_ids::{Keys, short_id};
use std::alloc::Global;
use wire_rules::{Message, Name, Outs, VersionMsg};

/// The version of the network's protocol that a node speaks, and the least that its peer may speak (BIP 339).
const PROTOCOL_VERSION: i32 = 70_016;

/// What a node says of itself.
fn own_version(alloc: Global, config: &Config) -> Result<VersionMsg, OutOfMemory>
    ensures { IfOk result (λ version. version ≡ own_version config.now) }
{
    Ok(VersionMsg {
        version: PROTOCOL_VERSION,
        services: 0,
        time: config.time,
        receiver: [0; 26],
        sender: [0; 26],
        nonce: config.nonce,
        agent: Bytes::from_vec(Vec::from_slice(alloc, b"/erlay:1/")?),
        height: 0,
        relay: Some(1),
    })
}

/// The message that says it.
fn version_of(alloc: Global, config: &Config) -> Result<Vec<Message>, OutOfMemory>
    ensures { IfOk result (λ messages. messages.items ≡ message.Version (own_version config.now) ∷ []) }
{
    let mut messages = Vec::new(alloc);
    messages.push(Message::Version(own_version(alloc, config)?))?;
    Ok(messages)
}

/// What a new node has to send: the opener speaks first.
#[tactic(auto, unfolding(node_rules::specs::Handshake::opening))]
pub(crate) fn opening_of(alloc: Global, config: &Config) -> Result<Vec<Message>, OutOfMemory>
    ensures { IfOk result (λ messages. messages.items ≡ opening_messages config.now) }
{
    match config.role {
        Role::Opener => version_of(alloc, config),
        Role::Accepter => Ok(Vec::new(alloc)),
    }
}

/// What a node answers its peer's `version` with, before its introduction.
#[tactic(auto, unfolding(node_rules::specs::Handshake::reply))]
fn before_introduction(alloc: Global, config: &Config) -> Result<Vec<Message>, OutOfMemory>
    ensures { IfOk result (λ messages. messages.items ++ introduction config.now ≡ reply config.now.role config.now) }
{
    match config.role {
        Role::Opener => Ok(Vec::new(alloc)),
        Role::Accepter => version_of(alloc, config),
    }
}

/// What a node answers its peer's `version` with.
fn reply_of(alloc: Global, config: &Config) -> Result<Vec<Message>, OutOfMemory>
    ensures { IfOk result (λ messages. messages.items ≡ reply config.now.role config.now) }
{
    let mut messages = before_introduction(alloc, config)?;
    messages.push(Message::WtxidRelay)?;
    messages.push(Message::SendTxRcncl {
        version: config.top,
        salt: config.salt,
    })?;
    messages.push(Message::Verack)?;
    Ok(messages)
}

/// The command of a message, where it is known.
#[tactic(auto, unfolding(wire_rules::specs::Commands::name_of))]
fn name_of(message: &Message) -> Option<Name>
    ensures { result ≡ name_of message.now }
{
    match message {
        Message::Version(_) => Some(Name::Version),
        Message::Verack => Some(Name::Verack),
        Message::WtxidRelay => Some(Name::WtxidRelay),
        Message::SendTxRcncl { .. } => Some(Name::SendTxRcncl),
        Message::ReqRecon { .. } => Some(Name::ReqRecon),
        Message::Sketch(_) => Some(Name::Sketch),
        Message::ReqSketchExt => Some(Name::ReqSketchExt),
        Message::ReconcilDiff { .. } => Some(Name::ReconcilDiff),
        Message::Inv(_) => Some(Name::Inv),
        Message::GetData(_) => Some(Name::GetData),
        Message::NotFound(_) => Some(Name::NotFound),
        Message::Tx(_) => Some(Name::Tx),
        Message::Ping(_) => Some(Name::Ping),
        Message::Pong(_) => Some(Name::Pong),
        Message::Other { .. } => None,
    }
}

/// The level of a connection.
#[tactic(auto, unfolding(node_rules::specs::Handshake::level_of))]
fn level_of(top: u32, offer: Option<Offer>) -> u32
    ensures { result ≡ level_of top (option_map offer_of offer) }
{
    match offer {
        Some(offer) => top.min(offer.version),
        None => 1,
    }
}

/// The machine of a role between rounds, of which none was begun.
#[tactic(auto, unfolding(crate::specs::Views::IsStageOf, node_rules::specs::Stages::is_after_handshake))]
fn idle_stage(alloc: Global, role: Role, level: u32) -> Stage
    requires least { 1 ≤ level }
    requires most { level ≤ 2 }
    ensures machine { machine_at result ≡ idle_machine level [] }
    ensures requests { requests_at result ≡ first_requests }
    ensures stage { IsStageOf role result }
    ensures plain { (offer : Option state.Offer) → is_plain_at result offer ≡ is_none offer }
{
    match role {
        Role::Opener => Stage::Opener(Initiator::new(alloc, FIRST_COEFFICIENT, level)),
        Role::Accepter => Stage::Accepter(Responder::new(alloc, level)),
    }
}

/// The set of ids, with their short ids under a key.
fn set_of(alloc: Global, keys: &Keys, ids: &[Hash32]) -> Result<ReconSet<Lane32>, OutOfMemory>
    requires distinct { AreDistinctIds ids.now }
    requires few { length ids.now ≤ POOL_LIMIT }
    ensures { IfOk result (λ set. set ≡ members (pair_of keys.now) ids.now) }
{
    let mut set = ReconSet::empty(alloc);
    for id in ids {
        set.add(*id, short_id(keys, id))?;
    }
    Ok(set)
}

/// Whether a peer's version is below the least that it may speak.
fn is_old(version: i32) -> bool
    ensures { result ≡ int_lt version (pos 70016) }
{
    version < PROTOCOL_VERSION
}

/// Whether a peer asks for no transactions.
fn has_no_relay(relay: Option<u8>) -> bool
    ensures { result ≡ has_no_relay relay }
{
    match relay {
        Some(relay) => relay == 0,
        None => false,
    }
}

impl Conversation {
    /// Takes a message before the peer's `version`.
    pub(crate) fn in_greeting(&mut self, message: &Message) -> Result<(), Stop>
        requires node { IsNode self.old.state }
        requires message { IsMessage message.now }
        requires phase { self.old.state.machine.phase ≡ phase.Greeting }
        ensures { IsStep (in_greeting self.old.state message.now) self.old self.new result }
    {
        match message {
            Message::Version(version) => self.on_version(version),
            Message::Ping(_) => self.pass_over(),
            Message::Pong(_) => self.pass_over(),
            _ => self.refuse(message),
        }
    }

    /// Takes a message between the peer's `version` and its `verack`.
    pub(crate) fn in_greeted(&mut self, message: &Message) -> Result<(), Stop>
        requires node { IsNode self.old.state }
        requires message { IsMessage message.now }
        requires phase { self.old.state.machine.phase ≡ phase.Greeted }
        ensures { IsStep (in_greeted self.old.state message.now) self.old self.new result }
    {
        match message {
            Message::WtxidRelay => self.on_wtxidrelay(),
            Message::SendTxRcncl { version, salt } => self.on_sendtxrcncl(Offer {
                version: *version,
                salt: *salt,
            }),
            Message::Verack => self.on_verack(),
            Message::Ping(_) => self.pass_over(),
            Message::Pong(_) => self.pass_over(),
            _ => self.refuse(message),
        }
    }

    /// Passes a message over.
    pub(crate) fn pass_over(&mut self) -> Result<(), Stop>
        ensures { IsStep (unchanged self.old.state) self.old self.new result }
    {
        let _ = &self.alloc;
        Ok(())
    }

    /// Refuses a message that doesn't belong here. One of another command is passed over.
    pub(crate) fn refuse(&mut self, message: &Message) -> Result<(), Stop>
        ensures { IsStep (on_unexpected self.old.state (name_of message.now)) self.old self.new result }
    {
        match name_of(message) {
            Some(command) => Err(Stop::Ended(End::Handshake { command })),
            None => self.pass_over(),
        }
    }

    /// The peer relays transactions by wtxid.
    fn on_wtxidrelay(&mut self) -> Result<(), Stop>
        ensures { IsStep (on_wtxidrelay self.old.state) self.old self.new result }
    {
        self.peer.relays_by_id = true;
        Ok(())
    }

    /// The peer's `version` is answered.
    fn on_version(&mut self, version: &VersionMsg) -> Result<(), Stop>
        requires node { IsNode self.old.state }
        requires message { IsMessage (message.Version version.now) }
        requires phase { self.old.state.machine.phase ≡ phase.Greeting }
        ensures { IsStep (on_version self.old.state version.now) self.old self.new result }
    {
        if is_old(version.version) {
            return Err(Stop::Ended(End::OldPeer(version.version)));
        }
        if has_no_relay(version.relay) {
            return Err(Stop::Ended(End::PeerNoRelay));
        }
        let messages = reply_of(self.alloc, &self.config)?;
        self.outbox.push_all(messages.as_slice())?;
        self.stage = Stage::Greeted;
        Ok(())
    }

    /// The peer's offer is noted.
    fn on_sendtxrcncl(&mut self, offer: Offer) -> Result<(), Stop>
        requires { self.old.state.machine.phase ≡ phase.Greeted }
        ensures { IsStep (on_sendtxrcncl self.old.state (offer_of offer)) self.old self.new result }
    {
        if offer.is_zero() {
            return Err(Stop::Ended(End::ZeroReconVersion));
        }
        if self.peer.offer.is_some() {
            return Err(Stop::Ended(End::Handshake {
                command: Name::SendTxRcncl,
            }));
        }
        self.peer.offer = Some(offer);
        Ok(())
    }

    /// The handshake is over.
    fn on_verack(&mut self) -> Result<(), Stop>
        requires node { IsNode self.old.state }
        requires phase { self.old.state.machine.phase ≡ phase.Greeted }
        ensures { IsStep (on_verack self.old.state) self.old self.new result }
    {
        if !self.peer.relays_by_id {
            return Err(Stop::Ended(End::NoWtxidRelay));
        }
        match self.peer.offer {
            Some(offer) => self.start_reconciling(offer),
            None => self.announce_all(),
        }
    }

    /// The handshake is over, and all that the pool has is to be reconciled.
    fn start_reconciling(&mut self, offer: Offer) -> Result<(), Stop>
        requires node { IsNode self.old.state }
        requires phase { self.old.state.machine.phase ≡ phase.Greeted }
        requires relays { self.old.state.peer.relays_by_id ≡ true }
        requires offer { self.old.state.peer.offer ≡ Some (offer_of offer) }
        ensures { IsStep (on_verack self.old.state) self.old self.new result }
    {
        let keys = Keys::from_salts(self.config.salt, offer.salt);
        let ids = self.store.pool().ids()?;
        let set = set_of(self.alloc, &keys, ids.as_slice())?;
        let level = level_of(self.config.top, Some(offer));
        self.set = set;
        self.stage = idle_stage(self.alloc, self.config.role, level);
        Ok(())
    }

    /// The handshake with a peer that reconciles nothing is over: all that the pool has is announced.
    fn announce_all(&mut self) -> Result<(), Stop>
        requires node { IsNode self.old.state }
        requires phase { self.old.state.machine.phase ≡ phase.Greeted }
        requires relays { self.old.state.peer.relays_by_id ≡ true }
        requires offer { self.old.state.peer.offer ≡ None }
        ensures { IsStep (on_verack self.old.state) self.old self.new result }
    {
        let ids = self.store.pool().ids()?;
        let messages = announcement_of(self.alloc, ids.as_slice())?;
        self.outbox.push_all(messages.as_slice())?;
        let level = level_of(self.config.top, None);
        self.stage = idle_stage(self.alloc, self.config.role, level);
        Ok(())
    }
}
