//! Announcements, requests and transactions, which both roles take alike once the handshake is over.

ghost use Rattle.std.specs.Prelude.{◌≡◌, ◌++◌, ◌∷◌, [], true, false, length, take, None, IsTrue, IfOk, OnOk, OnErr, if◌then◌else◌};
ghost use Rattle.std.specs.List.{AllByRecursion};
ghost use Rattle.id_rules.specs.Bytes.{is_tx_length};
ghost use Rattle.wire_rules.specs.Limits.{IsMessage};
ghost use Rattle.wire_rules.specs.declared.message.Message.TheVariants as message;
ghost use Rattle.pool_rules.specs.Pools.{AreDistinctIds, IsPool, is_in_pool};
ghost use Rattle.node_rules.specs.Invariant.{IsNode, is_phase_of};
ghost use Rattle.node_rules.specs.Inventory.{on_getdata, on_inv, on_notfound, on_tx, with_asked, with_requests, without_announced};
ghost use Rattle.node_rules.specs.Stages.{is_after_handshake};
ghost use Rattle.node_rules.specs.Turns.{after_turn, getdata_of, turn_with};
ghost use Rattle.conversation.specs.Handled.{IsHandled, IsStarved, IsStep};
ghost use Rattle.conversation.specs.Inventories.{missing_in, view_serving, want_turn};

use crate::conversation::Conversation;
use crate::stage::Stage;
use crate::stop::Stop;
use base_types::{Hash32, OutOfMemory};
use clmul_lanes::Lane32;
use inventories::{WTXID_KIND, refusal_of, request_of};
use node_rules::{End, Role};
use recon_set::ReconSet;
use relay_store::Receipt;
use wire_rules::{InvEntry, Invs, Name};

impl Conversation {
    /// Takes a transaction that is lent. It is copied only where it was asked for and is new.
    pub fn take_tx(&mut self, tx: &[u8]) -> Result<(), Stop>
        requires node { IsNode self.old.state }
        requires sized { IsTrue (is_tx_length (length tx.now)) }
        ensures { IsHandled (message.Tx tx.now) self.old self.new result }
    {
        if !self.is_after_handshake() {
            return Err(Stop::Ended(End::Handshake { command: Name::Tx }));
        }
        self.on_tx(tx)
    }

    /// Takes an announcement. The ids that it has leave the set. Those of them that are new are wanted by an opener, and an
    /// accepter asks for them at once.
    pub(crate) fn on_inv(&mut self, entries: &Invs) -> Result<(), Stop>
        requires node { IsNode self.old.state }
        requires relaying { is_after_handshake self.old.state.machine.phase ≡ true }
        requires message { IsMessage (message.Inv entries.now) }
        ensures { IsStep (on_inv self.old.state entries.now) self.old self.new result }
    {
        self.want_unknown(entries.as_slice())?;
        remove_announced(&mut self.set, entries.as_slice());
        Ok(())
    }

    /// Takes a request. Each transaction of the pool is sent once, and the peer is told what can't be.
    pub(crate) fn on_getdata(&mut self, entries: &Invs) -> Result<(), Stop>
        requires node { IsNode self.old.state }
        requires relaying { is_after_handshake self.old.state.machine.phase ≡ true }
        requires message { IsMessage (message.GetData entries.now) }
        ensures { IsStep (on_getdata self.old.state entries.now) self.old self.new result }
    {
        let len = self.outbox.len();
        let Ok(()) = self.serve_all(entries.as_slice()) else {
            self.outbox.truncate(len);
            return Err(Stop::OutOfMemory);
        };
        Ok(())
    }

    /// Takes what the peer can't send. It is asked for no more.
    pub(crate) fn on_notfound(&mut self, entries: &Invs) -> Result<(), Stop>
        requires node { IsNode self.old.state }
        requires relaying { is_after_handshake self.old.state.machine.phase ≡ true }
        requires message { IsMessage (message.NotFound entries.now) }
        ensures { IsStep (on_notfound self.old.state entries.now) self.old self.new result }
    {
        self.store.forget(entries.as_slice());
        self.end_fetching();
        Ok(())
    }

    /// Takes a transaction, once the handshake is over.
    pub(crate) fn on_tx(&mut self, tx: &[u8]) -> Result<(), Stop>
        requires node { IsNode self.old.state }
        requires relaying { is_after_handshake self.old.state.machine.phase ≡ true }
        requires sized { IsTrue (is_tx_length (length tx.now)) }
        ensures { IsStep (on_tx self.old.state tx.now) self.old self.new result }
    {
        match self.store.receive(tx)? {
            Receipt::Unasked => Ok(()),
            Receipt::Full => Err(Stop::Ended(End::PoolFull)),
            Receipt::Taken => {
                self.end_fetching();
                Ok(())
            }
        }
    }

    /// Wants the ids of an announcement that are new, or asks for them, by the role.
    fn want_unknown(&mut self, entries: &[InvEntry]) -> Result<(), Stop>
        requires node { IsNode self.old.state }
        requires relaying { is_after_handshake self.old.state.machine.phase ≡ true }
        requires message { IsMessage (message.Inv entries.now) }
        ensures step { IsStep (want_turn self.old.state entries.now) self.old self.new result }
        ensures unended { self.old.state.ended ≡ None }
    {
        let ids = self.store.unknown_ids(entries)?;
        if !self.store.has_room(ids.as_slice().len()) {
            return Err(Stop::Ended(End::PoolFull));
        }
        match self.config.role {
            Role::Opener => Ok(self.store.want(ids.as_slice())?),
            Role::Accepter => Ok(self.request(ids.as_slice())?),
        }
    }

    /// Asks for these ids too.
    fn request(&mut self, ids: &[Hash32]) -> Result<(), OutOfMemory>
        requires distinct { AreDistinctIds (self.old.state.wants.asked ++ ids.now) }
        requires absent { AllByRecursion (λ id. is_in_pool self.old.state.pool id ≡ false) ids.now }
        requires sendable { AllByRecursion IsMessage (getdata_of ids.now) }
        ensures ok { OnOk result (self.new ≡ after_turn self.old
            (turn_with (with_asked self.old.state self.old.state.set (self.old.state.wants.asked ++ ids.now)) (getdata_of ids.now))) }
        ensures err { OnErr result (IsStarved self.old self.new) }
    {
        let messages = request_of(self.alloc, ids)?;
        self.store.ask(ids)?;
        self.outbox.push_all(messages.as_slice())
    }

    /// Serves the entries of a request. Where memory runs out, frames of some may stand behind what waited.
    fn serve_all(&mut self, entries: &[InvEntry]) -> Result<(), OutOfMemory>
        requires node { IsNode self.old.state }
        requires sendable { AllByRecursion IsMessage (on_getdata self.old.state entries.now).out }
        ensures ok { OnOk result (self.new ≡ after_turn self.old (on_getdata self.old.state entries.now)) }
        ensures config { OnErr result (self.new.state.config ≡ self.old.state.config) }
        ensures pool { OnErr result (self.new.state.pool ≡ self.old.state.pool) }
        ensures front { OnErr result (take (length self.old.outbox) self.new.outbox ≡ self.old.outbox) }
    {
        let mut missing = Vec::new(self.alloc);
        for entry in entries {
            if !self.serve(entry)? {
                missing.push(*entry)?;
            }
        }
        let messages = refusal_of(self.alloc, missing.as_slice())?;
        self.outbox.push_all(messages.as_slice())
    }

    /// Serves an entry, where it may be, and tells whether.
    fn serve(&mut self, entry: &InvEntry) -> Result<bool, OutOfMemory>
        requires pool { IsPool self.old.state.pool }
        ensures told { IfOk result (λ served. missing_in self.old.state (entry.now ∷ []) ≡ (if served then [] else (entry.now ∷ []))) }
        ensures ok { IfOk result (λ _. self.new ≡ view_serving self.old (entry.now ∷ [])) }
        ensures err { OnErr result (IsStarved self.old self.new) }
    {
        if !self.store.serve(entry)? {
            return Ok(false);
        }
        let Some(tx) = self.store.pool().get(&entry.id) else {
            return Ok(false);
        };
        self.outbox.push_tx(tx)?;
        Ok(true)
    }

    /// Ends an opener's fetching, where nothing is asked for any more.
    fn end_fetching(&mut self)
        requires { IsTrue (is_phase_of self.old.state.config.role self.old.state.machine.phase) }
        ensures { self.new ≡ record self.old { state = with_requests self.old.state self.old.state.wants.asked } }
    {
        if self.store.has_asked() {
            return;
        }
        if let Stage::Opener(machine) = &mut self.stage {
            machine.on_last_want();
        }
    }
}

/// Takes out of a set the ids that an announcement has.
fn remove_announced(set: &mut ReconSet<Lane32>, entries: &[InvEntry])
    ensures { set.new ≡ without_announced set.old entries.now }
{
    for entry in entries {
        if entry.kind == WTXID_KIND {
            set.remove(&entry.id);
        }
    }
}
