//! What a node holds for its peer and wants from it.

ghost use Rattle.std.specs.Prelude.{◌≡◌, ◌+◌, ◌≤◌, nat_le, ◌&&◌, ◌||◌, not, true, false, [], ◌∷◌, ◌++◌, length, filter, IsTrue, IfOk, OnOk, OnErr};
ghost use Rattle.id_rules.specs.Bytes.{is_tx_length};
ghost use Rattle.id_rules.specs.Ids.{wtxid};
ghost use Rattle.pool_rules.specs.Pools.{AreDistinctIds, is_in_pool, is_listed, has_byte_room, transaction_of, without_id};
ghost use Rattle.pool_rules.specs.declared.limits.TheConstants.{POOL_LIMIT};
ghost use Rattle.std.specs.List.{AllByRecursion};
ghost use Rattle.node_rules.specs.Additions.{is_full};
ghost use Rattle.node_rules.specs.Inventory.{is_known, is_tx_entry, unknown_ids, wtxids_of};
ghost use Rattle.node_rules.specs.State.{NodeState, no_wants, open_wants, taken_room};
ghost use Rattle.id_list.specs.Entries.{ids_in};
ghost use Rattle.relay_store.specs.Holdings.{AreHoldings, IsReceipt, after_serving, holdings_of, is_servable, with_asked, with_wanted};

use base_types::{Bytes, Hash32, Hashes, OutOfMemory};
use id_list::IdList;
use inventories::WTXID_KIND;
use pool_rules::{POOL_BYTES, POOL_LIMIT};
use short_ids::wtxid;
use std::alloc::Global;
use std::marker::Model;
use tx_pool::Pool;
use wire_rules::InvEntry;

/// What becomes of a transaction that came.
#[derive(Clone, Copy, Debug, PartialEq, Eq)]
pub enum Receipt {
    /// It wasn't asked for.
    Unasked,
    /// The pool has no room for its bytes.
    Full,
    /// It is in the pool, and is asked for no more.
    Taken,
}

/// A pool, and the ids that are wanted, asked for and served. A contract sees the four lists. A call costs in proportion to
/// what it is given, times the logarithm of how many ids are kept, and not to the pool or to the wants; but `wanted` lists
/// all that is wanted, and `clear_wants` drops all ids.
#[derive(Drop)]
pub struct Store {
    alloc: Global,
    pool: Pool,
    wanted: IdList<()>,
    asked: IdList<()>,
    served: IdList<()>,
    /// How many of those asked for are in the pool.
    pooled: usize,
}

impl Model for Store {
    ghost use Rattle.id_list.specs.Entries.{ids_in};
    ghost use Rattle.relay_store.specs.Holdings.{Holdings};
    ghost use Rattle.relay_store.specs.Invariant.{IsCounted};

    ghost Value = { Holdings };

    ghost view = { λ s. record { pool = s.pool; wants = record { wanted = ids_in s.wanted; asked = ids_in s.asked; served = ids_in s.served } } };

    ghost invariant = { λ s. IsCounted s.pool (ids_in s.asked) s.pooled };
}

impl Store {
    /// A pool of which nothing was served, and no wants. It takes no memory.
    pub fn new(alloc: Global, pool: Pool) -> Store
        ensures { result ≡ record { pool = pool; wants = no_wants } }
    {
        Store {
            alloc,
            pool,
            wanted: IdList::new(alloc),
            asked: IdList::new(alloc),
            served: IdList::new(alloc),
            pooled: 0,
        }
    }

    /// The transactions that it holds.
    pub fn pool(&self) -> &Pool
        ensures { result.now ≡ self.now.pool }
    {
        &self.pool
    }

    /// How many ids are wanted or asked for.
    pub fn open_wants(&self) -> usize
        requires { AreHoldings self.now }
        ensures { (s : NodeState) → holdings_of s ≡ self.now → result ≡ length (open_wants s) }
    {
        self.wanted.len() + self.asked.len()
    }

    /// How much of the pool's limit is taken: its transactions, and the open wants that it lacks.
    fn taken_room(&self) -> usize
        requires { AreHoldings self.now }
        ensures value { (s : NodeState) → holdings_of s ≡ self.now → result ≡ taken_room s }
        ensures most { result ≤ POOL_LIMIT }
    {
        self.pool.len() + self.wanted.len() + (self.asked.len() - self.pooled)
    }

    /// Whether there is room for so many wants more.
    pub fn has_room(&self, count: usize) -> bool
        requires { AreHoldings self.now }
        ensures { (s : NodeState) → holdings_of s ≡ self.now → result ≡ nat_le (taken_room s + count) POOL_LIMIT }
    {
        count <= POOL_LIMIT - self.taken_room()
    }

    /// Whether the pool has room for the bytes of one more transaction.
    fn has_byte_room(&self, tx: &[u8]) -> bool
        requires { AreHoldings self.now }
        ensures { result ≡ has_byte_room self.now.pool tx.now }
    {
        tx.len() as u64 <= POOL_BYTES - self.pool.byte_len()
    }

    /// Whether there is no room for a transaction, whose id this is. An open want has its room already.
    pub fn is_full(&self, id: &Hash32, tx: &[u8]) -> bool
        requires held { AreHoldings self.now }
        requires named { id.now ≡ wtxid tx.now }
        requires sized { IsTrue (is_tx_length (length tx.now)) }
        ensures { (s : NodeState) → holdings_of s ≡ self.now → result ≡ is_full s (transaction_of tx.now) }
    {
        !self.has_byte_room(tx) || (!self.is_open_want(id) && POOL_LIMIT <= self.taken_room())
    }

    /// Whether any id is asked for.
    pub fn has_asked(&self) -> bool
        ensures asked { result ≡ true → (self.now.wants.asked ≡ [] → ⊥) }
        ensures none { result ≡ false → self.now.wants.asked ≡ [] }
    {
        !self.asked.is_empty()
    }

    /// Whether an id is wanted or asked for.
    pub fn is_open_want(&self, id: &Hash32) -> bool
        ensures { (s : NodeState) → holdings_of s ≡ self.now → result ≡ is_listed (open_wants s) id.now }
    {
        self.wanted.contains(id) || self.asked.contains(id)
    }

    /// The ids that are wanted, in order.
    pub fn wanted(&self) -> Result<Hashes, OutOfMemory>
        ensures { IfOk result (λ ids. ids ≡ self.now.wants.wanted) }
    {
        hashes_of(self.alloc, &self.wanted)
    }

    /// Puts in a transaction that it lacks and has room for. Its id is wanted no more. Where memory runs out, nothing changes.
    pub fn insert(&mut self, id: Hash32, tx: Bytes) -> Result<(), OutOfMemory>
        requires held { AreHoldings self.old }
        requires named { id ≡ wtxid tx }
        requires sized { IsTrue (is_tx_length (length tx)) }
        requires absent { is_in_pool self.old.pool id ≡ false }
        requires room { (s : NodeState) → holdings_of s ≡ self.old → is_full s (transaction_of tx) ≡ false }
        ensures ok { OnOk result (self.new ≡ record {
          pool = self.old.pool ++ transaction_of tx ∷ [];
          wants = record self.old.wants { wanted = without_id self.old.wants.wanted id };
        }) }
        ensures err { OnErr result (self.new ≡ self.old) }
    {
        self.pool.insert_named(id, tx)?;
        self.wanted.remove(&id);
        if self.asked.contains(&id) {
            self.pooled += 1;
        }
        Ok(())
    }

    /// Whether an entry is of a transaction that is neither in the pool nor wanted nor asked for, and whose id isn't among these.
    fn is_new(&self, found: &IdList<()>, entry: &InvEntry) -> bool
        ensures { (s : NodeState) → holdings_of s ≡ self.now
            → result ≡ (is_tx_entry entry.now && not (is_known s entry.now.id || is_listed (ids_in found.now) entry.now.id)) }
    {
        entry.kind == WTXID_KIND
            && !self.pool.contains(&entry.id)
            && !self.is_open_want(&entry.id)
            && !found.contains(&entry.id)
    }

    /// The ids of transactions that an announcement has, and that are neither in the pool nor wanted nor asked for, each once.
    pub fn unknown_ids(&self, entries: &[InvEntry]) -> Result<Hashes, OutOfMemory>
        ensures { IfOk result (λ ids. (s : NodeState) → holdings_of s ≡ self.now → ids ≡ unknown_ids s entries.now) }
    {
        let mut found = IdList::new(self.alloc);
        for entry in entries {
            if self.is_new(&found, entry) {
                found.push(entry.id, ())?;
            }
        }
        hashes_of(self.alloc, &found)
    }

    /// Wants an id too. Where memory runs out, nothing changes.
    fn want_one(&mut self, id: Hash32) -> Result<(), OutOfMemory>
        requires { is_listed self.old.wants.wanted id ≡ false }
        ensures ok { OnOk result (self.new ≡ with_wanted self.old (self.old.wants.wanted ++ id ∷ [])) }
        ensures err { OnErr result (self.new ≡ self.old) }
    {
        self.wanted.push(id, ())?;
        Ok(())
    }

    /// Wants these ids too. Where memory runs out, the pool is as it was.
    pub fn want(&mut self, ids: &[Hash32]) -> Result<(), OutOfMemory>
        requires { AreDistinctIds (self.old.wants.wanted ++ ids.now) }
        ensures ok { OnOk result (self.new ≡ with_wanted self.old (self.old.wants.wanted ++ ids.now)) }
        ensures pool { self.new.pool ≡ self.old.pool }
    {
        for id in ids {
            self.want_one(*id)?;
        }
        Ok(())
    }

    /// Asks for an id too, which the pool lacks. Where memory runs out, nothing changes.
    fn ask_one(&mut self, id: Hash32) -> Result<(), OutOfMemory>
        requires new { is_listed self.old.wants.asked id ≡ false }
        requires absent { is_in_pool self.old.pool id ≡ false }
        ensures ok { OnOk result (self.new ≡ with_asked self.old (self.old.wants.asked ++ id ∷ [])) }
        ensures err { OnErr result (self.new ≡ self.old) }
    {
        self.asked.push(id, ())?;
        Ok(())
    }

    /// Asks for these ids too, which the pool lacks. Where memory runs out, the pool is as it was.
    pub fn ask(&mut self, ids: &[Hash32]) -> Result<(), OutOfMemory>
        requires distinct { AreDistinctIds (self.old.wants.asked ++ ids.now) }
        requires absent { AllByRecursion (λ id. is_in_pool self.old.pool id ≡ false) ids.now }
        ensures ok { OnOk result (self.new ≡ with_asked self.old (self.old.wants.asked ++ ids.now)) }
        ensures pool { self.new.pool ≡ self.old.pool }
    {
        for id in ids {
            self.ask_one(*id)?;
        }
        Ok(())
    }

    /// Asks for all that is wanted, where nothing is asked for. It takes no memory.
    pub fn ask_wanted(&mut self)
        requires held { AreHoldings self.old }
        requires none { self.old.wants.asked ≡ [] }
        ensures { self.new ≡ record self.old { wants = record self.old.wants { wanted = []; asked = self.old.wants.wanted } } }
    {
        self.asked = self.wanted.take();
    }

    /// Asks for an id no more.
    fn drop_asked(&mut self, id: &Hash32)
        ensures { self.new ≡ with_asked self.old (without_id self.old.wants.asked id.now) }
    {
        if self.asked.remove(id).is_some() && self.pool.contains(id) {
            self.pooled -= 1;
        }
    }

    /// Asks no more for the transactions of these entries, which the peer doesn't have. It takes no memory.
    pub fn forget(&mut self, entries: &[InvEntry])
        ensures { self.new ≡ with_asked self.old (filter (λ id. not (is_listed (wtxids_of entries.now) id)) self.old.wants.asked) }
    {
        for entry in entries {
            if entry.kind == WTXID_KIND {
                self.drop_asked(&entry.id);
            }
        }
    }

    /// Wants nothing more, asks for nothing more, and may serve each transaction again.
    pub fn clear_wants(&mut self)
        ensures { self.new ≡ record self.old { wants = no_wants } }
    {
        self.wanted.clear();
        self.asked.clear();
        self.served.clear();
        self.pooled = 0;
    }

    /// Whether an entry names a transaction of the pool that wasn't served.
    fn may_serve(&self, entry: &InvEntry) -> bool
        ensures { result ≡ is_servable self.now entry.now }
    {
        entry.kind == WTXID_KIND
            && !self.served.contains(&entry.id)
            && self.pool.contains(&entry.id)
    }

    /// Notes that the transaction of an entry is served, where it may be: where the entry is of a wtxid, the pool has it, and
    /// it wasn't served. It tells whether. Where memory runs out, nothing changes.
    pub fn serve(&mut self, entry: &InvEntry) -> Result<bool, OutOfMemory>
        ensures told { IfOk result (λ served. served ≡ is_servable self.old entry.now) }
        ensures ok { IfOk result (λ served. self.new ≡ after_serving served self.old entry.now) }
        ensures err { OnErr result (self.new ≡ self.old) }
    {
        if !self.may_serve(entry) {
            return Ok(false);
        }
        self.served.push(entry.id, ())?;
        Ok(true)
    }

    /// Puts in a transaction that is asked for, that the pool lacks, and whose bytes it has room for. It is asked for no more.
    /// Where memory runs out, nothing changes.
    fn gain(&mut self, id: Hash32, tx: &[u8]) -> Result<(), OutOfMemory>
        requires held { AreHoldings self.old }
        requires named { id ≡ wtxid tx.now }
        requires sized { IsTrue (is_tx_length (length tx.now)) }
        requires asked { is_listed self.old.wants.asked id ≡ true }
        requires absent { is_in_pool self.old.pool id ≡ false }
        requires room { has_byte_room self.old.pool tx.now ≡ true }
        ensures ok { OnOk result (self.new ≡ record (with_asked self.old (without_id self.old.wants.asked id)) { pool = self.old.pool ++ transaction_of tx.now ∷ [] }) }
        ensures err { OnErr result (self.new ≡ self.old) }
    {
        let bytes = Bytes::from_vec(Vec::from_slice(self.alloc, tx)?);
        self.pool.insert_named(id, bytes)?;
        self.asked.remove(&id);
        Ok(())
    }

    /// Takes a transaction of the peer. Where memory runs out, nothing changes.
    pub fn receive(&mut self, tx: &[u8]) -> Result<Receipt, OutOfMemory>
        requires held { AreHoldings self.old }
        requires sized { IsTrue (is_tx_length (length tx.now)) }
        ensures ok { IfOk result (λ receipt. IsReceipt receipt self.old self.new tx.now) }
        ensures err { OnErr result (self.new ≡ self.old) }
    {
        let id = wtxid(tx);
        if !self.asked.contains(&id) {
            return Ok(Receipt::Unasked);
        }
        if self.pool.contains(&id) {
            self.drop_asked(&id);
            return Ok(Receipt::Taken);
        }
        if !self.has_byte_room(tx) {
            return Ok(Receipt::Full);
        }
        self.gain(id, tx)?;
        Ok(Receipt::Taken)
    }
}

/// The ids of a list, in order.
fn hashes_of(alloc: Global, list: &IdList<()>) -> Result<Hashes, OutOfMemory>
    ensures { IfOk result (λ ids. ids ≡ ids_in list.now) }
{
    let mut ids = Vec::with_capacity(alloc, list.len())?;
    for entry in list.iter() {
        ids.push(entry.id)?;
    }
    Ok(Hashes::from_vec(ids))
}
