//! Transactions that a node's own side adds.

ghost use Rattle.std.specs.Prelude.{◌≡◌, ◌&&◌, not, ◌∷◌, [], false, true, length, IsTrue, IfOk, OnOk, OnErr};
ghost use Rattle.id_rules.specs.Bytes.{is_tx_length};
ghost use Rattle.id_rules.specs.Ids.{wtxid};
ghost use Rattle.pool_rules.specs.Pools.{is_in_pool, is_listed, transaction_of};
ghost use Rattle.short_ids.specs.States.{pair_of};
ghost use Rattle.node_rules.specs.Additions.{after_addition, is_full, on_addition, with_member, with_pooled};
ghost use Rattle.node_rules.specs.Invariant.{IsNode};
ghost use Rattle.node_rules.specs.Stages.{is_after_handshake};
ghost use Rattle.node_rules.specs.State.{node_keys, open_wants};
ghost use Rattle.node_rules.specs.Turns.{after_turn, inv_of, turn_with};

use crate::conversation::Conversation;
use base_types::{Bytes, Hash32, OutOfMemory};
use inventories::announcement_of;
use node_rules::Added;
use short_ids::{Keys, short_id, wtxid};
use wire_rules::Phase;

impl Conversation {
    /// Adds a transaction of 1 to `TX_LIMIT` bytes. Where memory runs out, nothing changes.
    pub fn add(&mut self, tx: Bytes) -> Result<Added, OutOfMemory>
        requires node { IsNode self.old.state }
        requires sized { IsTrue (is_tx_length (length tx)) }
        ensures told { IfOk result (λ added. added ≡ (on_addition self.old.state tx).added) }
        ensures ok { IfOk result (λ _. self.new ≡ after_turn self.old (on_addition self.old.state tx).turn) }
        ensures err { OnErr result (self.new ≡ self.old) }
    {
        let id = wtxid(tx.as_slice());
        if self.store.pool().contains(&id) {
            return Ok(Added::Present);
        }
        if self.store.is_full(&id, tx.as_slice()) {
            return Ok(Added::Full);
        }
        self.add_new(id, tx)?;
        Ok(Added::New)
    }

    /// Adds a transaction that is new and finds room. Where the peer isn't known to have it and the handshake is over, a
    /// plain node announces it, and another puts it into its set.
    fn add_new(&mut self, id: Hash32, tx: Bytes) -> Result<(), OutOfMemory>
        requires node { IsNode self.old.state }
        requires named { id ≡ wtxid tx }
        requires sized { IsTrue (is_tx_length (length tx)) }
        requires absent { is_in_pool self.old.state.pool id ≡ false }
        requires room { is_full self.old.state (transaction_of tx) ≡ false }
        ensures ok { OnOk result (self.new ≡ after_turn self.old (after_addition self.old.state (transaction_of tx))) }
        ensures err { OnErr result (self.new ≡ self.old) }
    {
        if !self.is_news(&id) {
            self.store.insert(id, tx)?;
            return Ok(());
        }
        if self.is_plain() {
            self.add_announced(id, tx)?;
            return Ok(());
        }
        self.add_member(id, tx)?;
        Ok(())
    }

    /// Whether the peer is to learn of an id: it isn't known to have it, and the handshake is over.
    fn is_news(&self, id: &Hash32) -> bool
        ensures { result ≡ (not (is_listed (open_wants self.now.state) id.now) && is_after_handshake self.now.state.machine.phase) }
    {
        !self.store.is_open_want(id) && self.is_after_handshake()
    }

    /// Adds a transaction and announces it.
    fn add_announced(&mut self, id: Hash32, tx: Bytes) -> Result<(), OutOfMemory>
        requires node { IsNode self.old.state }
        requires named { id ≡ wtxid tx }
        requires sized { IsTrue (is_tx_length (length tx)) }
        requires absent { is_in_pool self.old.state.pool id ≡ false }
        requires room { is_full self.old.state (transaction_of tx) ≡ false }
        ensures ok { OnOk result (self.new ≡ after_turn self.old (turn_with (with_pooled self.old.state (transaction_of tx)) (inv_of (id ∷ [])))) }
        ensures err { OnErr result (self.new ≡ self.old) }
    {
        let len = self.outbox.len();
        let messages = announcement_of(self.alloc, &[id])?;
        self.outbox.push_all(messages.as_slice())?;
        let Ok(()) = self.store.insert(id, tx) else {
            self.outbox.truncate(len);
            return Err(OutOfMemory);
        };
        Ok(())
    }

    /// Adds a transaction and puts it into the set.
    fn add_member(&mut self, id: Hash32, tx: Bytes) -> Result<(), OutOfMemory>
        requires node { IsNode self.old.state }
        requires relaying { is_after_handshake self.old.state.machine.phase ≡ true }
        requires whole { self.old.state.plain ≡ false }
        requires unknown { is_listed (open_wants self.old.state) id ≡ false }
        requires named { id ≡ wtxid tx }
        requires sized { IsTrue (is_tx_length (length tx)) }
        requires absent { is_in_pool self.old.state.pool id ≡ false }
        requires room { is_full self.old.state (transaction_of tx) ≡ false }
        ensures ok { OnOk result (self.new ≡ record self.old { state = with_member (with_pooled self.old.state (transaction_of tx)) id }) }
        ensures err { OnErr result (self.new ≡ self.old) }
    {
        let keys = self.keys();
        self.set.add(id, short_id(&keys, &id))?;
        let Ok(()) = self.store.insert(id, tx) else {
            self.set.remove(&id);
            return Err(OutOfMemory);
        };
        Ok(())
    }

    /// The key of both salts.
    fn keys(&self) -> Keys
        ensures { pair_of result ≡ node_keys self.now.state }
    {
        let salt = match self.peer.offer {
            Some(offer) => offer.salt,
            None => 0,
        };
        Keys::from_salts(self.config.salt, salt)
    }

    /// Whether the handshake is over.
    #[tactic(auto, using(crate::proofs::Relaying::behind), unfolding(node_rules::specs::Stages::is_after_handshake))]
    pub(crate) fn is_after_handshake(&self) -> bool
        ensures { result ≡ is_after_handshake self.now.state.machine.phase }
    {
        match self.phase() {
            Phase::Greeting | Phase::Greeted => false,
            _ => true,
        }
    }
}
