//! The set that a node reconciles with a peer.

ghost use Rattle.std.specs.Prelude.{◌≡◌, ℕ, ◌<◌, ◌≤◌, ◌++◌, ◌∷◌, [], false, length, IfOk, OnErr, filter, not, ◌==◌};
ghost use Rattle.pool_rules.specs.Pools.{is_listed};
ghost use Rattle.pool_rules.specs.Snapshots.{IsSet, ids_of, without_member};
ghost use Rattle.pool_rules.specs.declared.limits.TheConstants.{POOL_LIMIT};
ghost use Rattle.recon_set.specs.Members.{HaveElements};
ghost use Rattle.recon_set.specs.Sums.{IsRunning};

use crate::Snapshot;
use base_types::{Hash32, OutOfMemory};
use field_core::Field;
use std::alloc::Global;
use std::marker::Model;
use std::mem;

/// The ids that a node reconciles with a peer, with their short ids, in order. It keeps the sums of their largest sketch
/// as ids come and go: each change costs one row of odd powers at most. A contract sees it as the list of its members.
#[derive(Drop)]
pub struct ReconSet<F: Field> {
    snapshot: Snapshot<F>,
}

impl<F: Field> Model for ReconSet<F> {
    ghost use Rattle.std.specs.Prelude.{◌≡◌, List, [], false};
    ghost use Rattle.pool_rules.specs.Snapshots.{Member};

    ghost Value = { List Member };

    ghost view = { λ s. s.snapshot.members };

    ghost invariant = { λ s. s.snapshot.is_summed ≡ false → s.snapshot.members ≡ [] };
}

impl<F: Field> ReconSet<F> {
    /// The empty set. It takes no memory.
    pub fn empty(alloc: Global) -> ReconSet<F>
        requires { F.BITS ≡ 32 }
        ensures { result ≡ [] }
    {
        ReconSet {
            snapshot: Snapshot::empty(alloc),
        }
    }

    /// Puts an id at the end, with its short id. Where memory runs out, the set is as it was.
    pub fn add(&mut self, id: Hash32, short: u32) -> Result<(), OutOfMemory>
        requires absent { is_listed (ids_of self.old) id ≡ false }
        requires room { length self.old < POOL_LIMIT }
        requires nonzero { 0 < short }
        ensures ok { IfOk result (λ _. self.new ≡ self.old ++ record { id = id; short = short } ∷ []) }
        ensures err { OnErr result (self.new ≡ self.old) }
    {
        if self.snapshot.sums().is_empty() {
            self.snapshot.put_first(id, short)
        } else {
            self.snapshot.put(id, short)
        }
    }

    /// Takes an id out, and answers whether it was there. It takes no memory, and the rest stays in order.
    pub fn remove(&mut self, id: &Hash32) -> bool
        ensures there { result ≡ is_listed (ids_of self.old) id.now }
        ensures rest { self.new ≡ without_member self.old id.now }
    {
        self.snapshot.remove(id)
    }

    /// Takes ids out, each that it has. It takes no memory, and the rest stays in order.
    pub fn remove_all(&mut self, ids: &[Hash32])
        ensures { self.new ≡ filter (λ m. not (is_listed ids.now m.id)) self.old }
    {
        for id in ids {
            self.remove(id);
        }
    }

    /// Whether it has an id.
    pub fn contains(&self, id: &Hash32) -> bool
        ensures { result ≡ is_listed (ids_of self.now) id.now }
    {
        self.snapshot.contains(id)
    }

    /// How many ids it has.
    pub fn len(&self) -> usize
        ensures value { result ≡ length self.now }
        ensures few { length self.now ≤ POOL_LIMIT }
        ensures set { IsSet self.now }
        ensures elements { HaveElements self.now }
    {
        self.snapshot.len()
    }

    /// Whether it has no id.
    pub fn is_empty(&self) -> bool
        ensures { result ≡ (length self.now == 0) }
    {
        self.len() == 0
    }

    /// The sums of the largest sketch of the short ids that one id alone has. There are none before the first id is
    /// added, or the first since a snapshot was taken.
    pub fn running(&self) -> &[F]
        ensures { IsRunning F.bits_of self.now result.now }
    {
        self.snapshot.sums()
    }

    /// Hands out all ids, and leaves the set empty. It takes no memory and copies nothing.
    pub fn take_snapshot(&mut self) -> Snapshot<F>
        ensures taken { result.members ≡ self.old }
        ensures empty { self.new ≡ [] }
    {
        let alloc = self.snapshot.allocator();
        mem::replace(&mut self.snapshot, Snapshot::empty(alloc))
    }

    /// Lends what `take_snapshot` would hand out.
    pub fn as_snapshot(&self) -> &Snapshot<F>
        ensures { result.now.members ≡ self.now }
    {
        &self.snapshot
    }
}
