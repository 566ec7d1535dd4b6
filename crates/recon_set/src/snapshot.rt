//! What a round takes of a set.

ghost use Rattle.std.specs.Prelude.{◌≡◌, ℕ, ◌+◌, ◌<◌, ◌≤◌, ◌++◌, ◌∷◌, [], true, false, nat_lt, length, map, filter, find, replicate, IfOk, IfErr, OnOk, OnErr, Err, option_map, is_some, ◌==◌};
ghost use Rattle.std.specs.List.{AllByRecursion, list_any};
ghost use Rattle.sketch_rules.specs.Sketches.{IsCapacity};
ghost use Rattle.sketch_rules.specs.declared.limits.TheConstants.{MAX_CAPACITY};
ghost use Rattle.sketch_core.specs.Refusals.{IsRefusal};
ghost use Rattle.sketch_core.specs.declared.fault.SketchFault.TheVariants.{CapacityOutOfRange};
ghost use Rattle.pool_rules.specs.Pools.{is_listed, is_same_id, AreDistinctIds};
ghost use Rattle.pool_rules.specs.Snapshots.{IsSet, ids_of, without_member, sketched_shorts, colliding, id_of_short, snapshot_sketch};
ghost use Rattle.pool_rules.specs.declared.limits.TheConstants.{POOL_LIMIT};
ghost use Rattle.recon_set.specs.Announcements.{announced_ids};
ghost use Rattle.recon_set.specs.Members.{HaveElements};
ghost use Rattle.recon_set.specs.Pairs.{pair_ids, pair_members};

use crate::members::Members;
use crate::sums::{sketch_of_shorts, update};
use base_types::{Hash32, Hashes, OutOfMemory, Shorts};
use field_core::Field;
use sketch_core::{Sketch, SketchFault};
use sketch_rules::MAX_CAPACITY;
use std::alloc::Global;
use std::marker::Model;

/// The ids and short ids that a set had when a round took them, in its order. A contract sees its members, and whether
/// it keeps the sums of their largest sketch. Those whose short ids are equal are in no sketch.
#[derive(Drop)]
pub struct Snapshot<F: Field> {
    members: Members,
    sums: Vec<F>,
}

impl<F: Field> Model for Snapshot<F> {
    ghost use Rattle.recon_set.specs.Sums.{Contents};

    ghost Value = { Contents };

    ghost use Rattle.std.specs.Prelude.{nat_lt, length};
    ghost use Rattle.recon_set.specs.Sums.{AreSums};

    ghost view = { λ s. record { members = s.members; is_summed = nat_lt 0 (length s.sums.items) } };

    ghost invariant = { λ s. AreSums F.bits_of F.BITS s.members s.sums.items };
}

impl<F: Field> Snapshot<F> {
    /// No members. It takes no memory.
    pub(crate) fn empty(alloc: Global) -> Snapshot<F>
        requires { F.BITS ≡ 32 }
        ensures { result ≡ record { members = []; is_summed = false } }
    {
        Snapshot {
            members: Members::new(alloc),
            sums: Vec::new(alloc),
        }
    }

    /// The snapshot of these ids with their short ids. It keeps no sums.
    pub fn of(alloc: Global, pairs: &[(Hash32, u32)]) -> Result<Snapshot<F>, OutOfMemory>
        requires width { F.BITS ≡ 32 }
        requires distinct { AreDistinctIds (pair_ids pairs.now) }
        requires nonzero { AllByRecursion (λ p. 0 < p.1) pairs.now }
        requires few { length pairs.now ≤ POOL_LIMIT }
        ensures { IfOk result (λ s. s ≡ record { members = pair_members pairs.now; is_summed = false }) }
    {
        let members = members_of_pairs(alloc, pairs)?;
        Ok(Snapshot {
            members,
            sums: Vec::new(alloc),
        })
    }

    /// What it takes memory from.
    pub(crate) fn allocator(&self) -> Global
        ensures { F.BITS ≡ 32 }
    {
        let _ = &self.sums;
        self.members.allocator()
    }

    /// How many members it has.
    pub fn len(&self) -> usize
        ensures value { result ≡ length self.now.members }
        ensures few { length self.now.members ≤ POOL_LIMIT }
        ensures set { IsSet self.now.members }
        ensures elements { HaveElements self.now.members }
    {
        self.members.len()
    }

    /// Whether an id is among them.
    pub(crate) fn contains(&self, id: &Hash32) -> bool
        ensures { result ≡ is_listed (ids_of self.now.members) id.now }
    {
        self.members.contains(id)
    }

    /// Whether it has no member.
    pub fn is_empty(&self) -> bool
        ensures { result ≡ (length self.now.members == 0) }
    {
        self.len() == 0
    }

    /// All ids, in order.
    pub fn ids(&self) -> Result<Hashes, OutOfMemory>
        ensures { IfOk result (λ ids. ids ≡ ids_of self.now.members) }
    {
        self.members.ids()
    }

    /// The short ids that one member alone has, in order: those that a sketch is made of.
    pub fn sketched(&self) -> Result<Shorts, OutOfMemory>
        ensures { IfOk result (λ shorts. shorts ≡ sketched_shorts self.now.members) }
    {
        self.members.sketched()
    }

    /// The ids of all other members, in order: those that are always announced.
    pub fn aside(&self) -> Result<Hashes, OutOfMemory>
        ensures { IfOk result (λ ids. ids ≡ ids_of (colliding self.now.members)) }
    {
        self.members.aside()
    }

    /// Whether a short id is sketched.
    pub fn has_sketched(&self, short: u32) -> bool
        ensures { result ≡ list_any (λ other. other == short) (sketched_shorts self.now.members) }
    {
        self.members.has_sketched(short)
    }

    /// The ids that a side announces whose peer lacks these short ids: of those of them that it has, and all that are
    /// set aside, in order.
    pub fn announced(&self, shorts: &[u32]) -> Result<Hashes, OutOfMemory>
        ensures { IfOk result (λ ids. ids ≡ announced_ids self.now.members shorts.now) }
    {
        let mut sorted = shorts.to_vec(self.members.allocator())?;
        sorted.sort_unstable();
        self.members.announced(sorted.as_slice())
    }

    /// The id of a sketched short id.
    pub fn by_short(&self, short: u32) -> Option<Hash32>
        ensures { result ≡ id_of_short self.now.members short }
    {
        self.members.by_short(short)
    }

    /// The sketch of the sketched short ids. It cuts the sums that are kept, or makes as many as it has where none are.
    pub fn sketch(&self, capacity: usize) -> Result<Sketch<F>, SketchFault>
        ensures ok { IfOk result (λ s. map F.bits_of s ≡ snapshot_sketch self.now.members capacity) }
        ensures in_range { OnOk result (IsCapacity capacity) }
        ensures refused { IfErr result (IsRefusal capacity) }
        ensures out_of_range { ¬ IsCapacity capacity → result ≡ Err (CapacityOutOfRange capacity) }
    {
        if capacity < 1 || MAX_CAPACITY < capacity {
            return Err(SketchFault::CapacityOutOfRange(capacity));
        }
        if self.sums.is_empty() {
            let Ok(shorts) = self.members.sketched() else {
                return Err(SketchFault::OutOfMemory);
            };
            return sketch_of_shorts(self.members.allocator(), shorts.as_slice(), capacity);
        }
        let sums = Vec::from_slice(self.members.allocator(), &self.sums.as_slice()[..capacity])?;
        Ok(Sketch::from_sums(sums))
    }

    /// The sums that are kept.
    pub(crate) fn sums(&self) -> &[F]
        ensures kept { self.now.is_summed ≡ nat_lt 0 (length result.now) }
        ensures sums { 0 < length result.now → map F.bits_of result.now ≡ snapshot_sketch self.now.members MAX_CAPACITY }
    {
        self.sums.as_slice()
    }

    /// Puts a member into a snapshot that has none, and makes the sums. Where memory runs out, all is as it was.
    pub(crate) fn put_first(&mut self, id: Hash32, short: u32) -> Result<(), OutOfMemory>
        requires none { self.old.members ≡ [] }
        requires nonzero { 0 < short }
        ensures ok { IfOk result (λ _. self.new ≡ record { members = record { id = id; short = short } ∷ []; is_summed = true }) }
        ensures err { OnErr result (self.new ≡ self.old) }
    {
        let mut first = Snapshot::summed(self.allocator())?;
        first.put(id, short)?;
        *self = first;
        Ok(())
    }

    /// No members, and the sums of none.
    fn summed(alloc: Global) -> Result<Snapshot<F>, OutOfMemory>
        requires { F.BITS ≡ 32 }
        ensures { IfOk result (λ s. s ≡ record { members = []; is_summed = true }) }
    {
        Ok(Snapshot {
            members: Members::new(alloc),
            sums: zeros(alloc, MAX_CAPACITY)?,
        })
    }

    /// Puts a member at the end. Where memory runs out, all is as it was.
    pub(crate) fn put(&mut self, id: Hash32, short: u32) -> Result<(), OutOfMemory>
        requires absent { is_listed (ids_of self.old.members) id ≡ false }
        requires room { length self.old.members < POOL_LIMIT }
        requires nonzero { 0 < short }
        ensures ok { IfOk result (λ _. self.new.members ≡ self.old.members ++ record { id = id; short = short } ∷ []) }
        ensures err { OnErr result (self.new.members ≡ self.old.members) }
        ensures sums { self.new.is_summed ≡ self.old.is_summed }
    {
        let was_single = self.members.is_single(short);
        self.members.push(id, short)?;
        let is_single = self.members.is_single(short);
        update(self.sums.as_mut_slice(), short, was_single, is_single);
        Ok(())
    }

    /// Takes a member out, and answers whether it was there. It takes no memory.
    pub(crate) fn remove(&mut self, id: &Hash32) -> bool
        ensures there { result ≡ is_listed (ids_of self.old.members) id.now }
        ensures rest { self.new.members ≡ without_member self.old.members id.now }
        ensures sums { self.new.is_summed ≡ self.old.is_summed }
    {
        let Some(short) = self.members.short_of(id) else {
            return false;
        };
        let was_single = self.members.is_single(short);
        self.members.remove(id);
        let is_single = self.members.is_single(short);
        update(self.sums.as_mut_slice(), short, was_single, is_single);
        true
    }
}

/// As many zeros.
fn zeros<F: Field>(alloc: Global, count: usize) -> Result<Vec<F>, OutOfMemory>
    ensures { IfOk result (λ sums. sums.items ≡ replicate count F.ops.zero) }
{
    Ok(vec![in alloc; F::ZERO; count]?)
}

/// The members that these pairs are.
fn members_of_pairs(alloc: Global, pairs: &[(Hash32, u32)]) -> Result<Members, OutOfMemory>
    requires distinct { AreDistinctIds (pair_ids pairs.now) }
    requires nonzero { AllByRecursion (λ p. 0 < p.1) pairs.now }
    requires few { length pairs.now ≤ POOL_LIMIT }
    ensures { IfOk result (λ members. members ≡ pair_members pairs.now) }
{
    let mut members = Members::new(alloc);
    for (id, short) in pairs {
        members.push(*id, *short)?;
    }
    Ok(members)
}
