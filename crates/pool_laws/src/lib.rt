//! Laws of pools and their text, of ids, and of how large sketches are, in `proofs/`, each stated by a function.
#![tactic(auto)]

ghost use Rattle.std.specs.Prelude.{◌≡◌, ℕ, ◌^◌, ◌<◌, ◌≤◌, false, IsTrue, List, length, Ok};
ghost use Rattle.base_types.specs.declared.lists.Hash32.{Hash32};
ghost use Rattle.id_rules.specs.Bytes.{is_id, is_tx};
ghost use Rattle.id_rules.specs.Ids.{KeyPair, wtxid, keys_of, short_id};
ghost use Rattle.pool_rules.specs.Capacity.{capacity, next_q, next_q_failed};
ghost use Rattle.pool_rules.specs.PoolFile.{pool_text, pool_in};
ghost use Rattle.pool_rules.specs.Pools.{Transaction, IsPool, insertion_of};
ghost use Rattle.pool_rules.specs.declared.limits.TheConstants.{LEAST_CAPACITY, FIRST_LIMIT, POOL_FILE_LIMIT};
ghost use Rattle.pool_laws.specs.Outcomes.{IsOutcome};

/// The text of a pool is read as the pool, what is read of any text is a pool, and the text of a pool is within its limit.
/// It does nothing when it runs: its contract is the theorem.
pub fn written_pools_are_read()
    ensures written { (pool : List Transaction) → IsPool pool → pool_in (pool_text pool) ≡ Ok pool }
    ensures sound { (text : List ℕ) (pool : List Transaction) → pool_in text ≡ Ok pool → IsPool pool }
    ensures short { (pool : List Transaction) → IsPool pool → length (pool_text pool) ≤ POOL_FILE_LIMIT }
{}

/// A pool into which bytes are put that may be a transaction stays a pool, and the answer says what became of it and why.
/// It does nothing when it runs: its contract is the theorem.
pub fn insertions_keep_pools()
    ensures kept { (pool : List Transaction) (tx : List ℕ) → IsPool pool → IsTrue (is_tx tx) → IsPool (insertion_of pool tx).pool }
    ensures outcome { (pool : List Transaction) (tx : List ℕ) → IsOutcome (insertion_of pool tx).inserted pool tx (insertion_of pool tx).pool }
{}

/// An id has 32 bytes. It does nothing when it runs: its contract is the theorem.
pub fn ids_have_32_bytes()
    ensures { (tx : List ℕ) → IsTrue (is_id (wtxid tx)) }
{}

/// Both nodes have one key, whichever salt is whose. It does nothing when it runs: its contract is the theorem.
pub fn keys_are_shared()
    ensures { (a b : ℕ) → keys_of a b ≡ keys_of b a }
{}

/// A short id has 32 bits and is never 0, so it can be an element of a sketch. It does nothing when it runs: its contract
/// is the theorem.
pub fn short_ids_are_elements()
    ensures nonzero { (keys : KeyPair) (id : Hash32) → 0 < short_id keys id }
    ensures small { (keys : KeyPair) (id : Hash32) → short_id keys id < 2 ^ 32 }
{}

/// The coefficient of the next round fits its 16 bits: behind an answered round, whose difference has no more of the
/// opener's short ids than were sketched, and behind one that fell back. It does nothing when it runs: its contract is the
/// theorem.
pub fn coefficients_fit()
    ensures answered { (mine asks own : ℕ) → mine ≤ own → next_q mine asks own ≤ 65534 }
    ensures failed { (q : ℕ) → next_q_failed q ≤ 65534 }
{}

/// The capacity of a first sketch is within its limits. It does nothing when it runs: its contract is the theorem.
pub fn capacities_are_within_limits()
    ensures enough { (size local q : ℕ) → LEAST_CAPACITY ≤ capacity size local q }
    ensures limited { (size local q : ℕ) → capacity size local q ≤ FIRST_LIMIT }
{}
