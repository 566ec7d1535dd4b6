//! A pool of transactions.

ghost use Rattle.std.specs.Prelude.{◌≡◌, ◌≤◌, true, false, [], ◌∷◌, ◌++◌, length, option_map, IfOk, OnOk, OnErr, IsTrue};
ghost use Rattle.id_rules.specs.Bytes.{are_bytes, is_tx, is_tx_length};
ghost use Rattle.id_rules.specs.Ids.{wtxid};
ghost use Rattle.line_text.specs.Gives.{IsOutcome};
ghost use Rattle.pool_rules.specs.Pools.{IsPool, bytes_of_id, byte_count, has_room, insertion_of, is_in_pool, pool_ids, transaction_of};
ghost use Rattle.pool_rules.specs.PoolFile.{pool_in, pool_text};
ghost use Rattle.pool_rules.specs.declared.limits.TheConstants.{POOL_FILE_LIMIT};
ghost use Rattle.pool_laws.specs.Outcomes as outcomes;

use crate::save::{HEADING_BYTES, LINE_BYTES, push_heading, push_line};
use base_types::{Bytes, Hash32, Hashes, OutOfMemory};
use id_rules::TX_LIMIT;
use indexmap::IndexMap;
use pool_rules::{Inserted, POOL_BYTES, POOL_LIMIT};
use short_ids::wtxid;
use std::alloc::Global;
use std::marker::Model;

/// Transactions by id, in order of insertion: no transaction twice, at most `POOL_LIMIT` of them, and at most `POOL_BYTES`
/// bytes of all. A contract sees the list of them.
#[derive(Drop)]
pub struct Pool {
    transactions: IndexMap<Hash32, Bytes>,
    // The bytes of all transactions.
    bytes: u64,
    alloc: Global,
}

impl Model for Pool {
    ghost use Rattle.std.specs.Prelude.{◌≡◌, List};
    ghost use Rattle.pool_rules.specs.Pools.{Transaction, IsPool, byte_count};
    ghost use Rattle.tx_pool.specs.Views.{transactions_of};

    ghost Value = { List Transaction };

    ghost view = { λ p. transactions_of p.transactions.entries };

    ghost invariant = { λ p. IsPool (transactions_of p.transactions.entries) × (byte_count (transactions_of p.transactions.entries) ≡ p.bytes) };
}

impl Pool {
    /// The empty pool. It allocates nothing before the first transaction.
    pub fn empty(alloc: Global) -> Pool
        ensures { result ≡ [] }
    {
        Pool {
            transactions: IndexMap::new(alloc),
            bytes: 0,
            alloc,
        }
    }

    /// The number of transactions.
    pub fn len(&self) -> usize
        ensures len { result ≡ length self.now }
        ensures sound { IsPool self.now }
    {
        self.transactions.len()
    }

    /// The bytes of all transactions.
    pub fn byte_len(&self) -> u64
        ensures { result ≡ byte_count self.now }
    {
        self.bytes
    }

    /// Whether a transaction has this id.
    pub fn contains(&self, id: &Hash32) -> bool
        ensures { result ≡ is_in_pool self.now id.now }
    {
        self.transactions.contains_key(id)
    }

    /// The bytes of the transaction with this id.
    pub fn get(&self, id: &Hash32) -> Option<&[u8]>
        ensures { option_map (λ tx. tx.now) result ≡ bytes_of_id self.now id.now }
    {
        match self.transactions.get(id) {
            Some(tx) => Some(tx.as_slice()),
            None => None,
        }
    }

    /// The ids, in order of insertion.
    pub fn ids(&self) -> Result<Hashes, OutOfMemory>
        ensures { IfOk result (λ ids. ids ≡ pool_ids self.now) }
    {
        let ids = self.transactions.keys();
        Ok(Hashes::from_vec(Vec::from_slice(self.alloc, ids.as_slice())?))
    }

    /// Puts in a transaction of 1 to `TX_LIMIT` bytes. Where memory runs out, the pool stays as it was.
    pub fn insert(&mut self, tx: Bytes) -> Result<Inserted, OutOfMemory>
        requires { IsTrue (is_tx_length (length tx)) }
        ensures pool { OnOk result (self.new ≡ (insertion_of self.old tx).pool) }
        ensures inserted { IfOk result (λ i. i ≡ (insertion_of self.old tx).inserted) }
        ensures outcome { IfOk result (λ i. outcomes.IsOutcome i self.old tx self.new) }
        ensures unchanged { OnErr result (self.new ≡ self.old) }
    {
        let id = wtxid(tx.as_slice());
        self.insert_named(id, tx)
    }

    /// Puts in a transaction of 1 to `TX_LIMIT` bytes whose id is known. Where memory runs out, the pool stays as it was.
    pub fn insert_named(&mut self, id: Hash32, tx: Bytes) -> Result<Inserted, OutOfMemory>
        requires sized { IsTrue (is_tx_length (length tx)) }
        requires named { id ≡ wtxid tx }
        ensures pool { OnOk result (self.new ≡ (insertion_of self.old tx).pool) }
        ensures inserted { IfOk result (λ i. i ≡ (insertion_of self.old tx).inserted) }
        ensures outcome { IfOk result (λ i. outcomes.IsOutcome i self.old tx self.new) }
        ensures unchanged { OnErr result (self.new ≡ self.old) }
    {
        if self.contains(&id) {
            return Ok(Inserted::Present);
        }
        if !self.has_room(tx.as_slice()) {
            return Ok(Inserted::Full);
        }
        self.append(id, tx)?;
        Ok(Inserted::New)
    }

    /// The pool as a text of form 2.
    pub fn save_text(&self) -> Result<Bytes, OutOfMemory>
        ensures text { IfOk result (λ text. text ≡ pool_text self.now) }
        ensures read_again { IfOk result (λ text. pool_in text ≡ Ok self.now) }
        ensures short { IfOk result (λ text. length text ≤ POOL_FILE_LIMIT) }
    {
        let len = HEADING_BYTES + LINE_BYTES * self.len() + 2 * self.bytes as usize;
        let mut text = Vec::with_capacity(self.alloc, len)?;
        push_heading(&mut text, self.len())?;
        for (id, tx) in self.transactions.iter() {
            push_line(self.alloc, &mut text, id, tx)?;
        }
        Ok(Bytes::from_vec(text))
    }

    /// Whether there is room for one more transaction.
    fn has_room(&self, tx: &[u8]) -> bool
        ensures room { result ≡ has_room self.now tx.now }
        ensures bytes { IsTrue (are_bytes tx.now) }
    {
        self.len() < POOL_LIMIT && self.bytes + tx.len() as u64 <= POOL_BYTES
    }

    /// Puts in a transaction that is new and finds room.
    fn append(&mut self, id: Hash32, tx: Bytes) -> Result<(), OutOfMemory>
        requires named { id ≡ wtxid tx }
        requires transaction { IsTrue (is_tx tx) }
        requires absent { is_in_pool self.old id ≡ false }
        requires room { has_room self.old tx ≡ true }
        ensures grown { OnOk result (self.new ≡ self.old ++ transaction_of tx ∷ []) }
        ensures unchanged { OnErr result (self.new ≡ self.old) }
    {
        let bytes = self.bytes + tx.as_slice().len() as u64;
        self.transactions.insert(id, tx)?;
        self.bytes = bytes;
        Ok(())
    }
}
