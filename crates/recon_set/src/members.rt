//! Ids with their short ids, in order, with a look-up by either.

ghost use Rattle.std.specs.Prelude.{◌≡◌, ℕ, ◌+◌, ◌<◌, ◌≤◌, ◌^◌, ◌==◌, [], ◌∷◌, ◌++◌, List, false, length, map, filter, find, Some, IfOk, OnErr, IfSome, option_map, if◌then◌else◌, not, ◌||◌};
ghost use Rattle.std.specs.List.{list_any};
ghost use Rattle.std.specs.List.Sorted.{IsNonDecreasing};
ghost use Rattle.std.specs.Ordering.{nat_cmp};
ghost use Rattle.std.specs.BTreeMap.{get};
ghost use Rattle.pool_rules.specs.Pools.{is_listed, is_same_id};
ghost use Rattle.pool_rules.specs.Snapshots.{Member, IsSet, ids_of, without_member, is_single, sketched_shorts, colliding, id_of_short};
ghost use Rattle.pool_rules.specs.declared.limits.TheConstants.{POOL_LIMIT};
ghost use Rattle.recon_set.specs.Groups.{with_place, without_place};
ghost use Rattle.recon_set.specs.Members.{HaveElements};

use base_types::{Hash32, Hashes, OutOfMemory, Shorts};
use id_list::IdList;
use std::alloc::Global;
use std::collections::BTreeMap;
use std::marker::Model;

/// The members with one short id: how many, and the exclusive or of their places.
#[derive(Clone, Copy, Debug, PartialEq, Eq)]
pub(crate) struct Group {
    pub(crate) count: u64,
    pub(crate) places: u64,
}

/// Ids with their short ids, in order. A contract sees it as the list of members.
#[derive(Drop)]
pub(crate) struct Members {
    alloc: Global,
    list: IdList<u32>,
    groups: BTreeMap<u32, Group>,
}

impl Model for Members {
    ghost use Rattle.std.specs.Prelude.{List};
    ghost use Rattle.pool_rules.specs.Snapshots.{Member};

    ghost Value = { List Member };

    ghost use Rattle.recon_set.specs.Invariant.{AreKept};
    ghost use Rattle.recon_set.specs.Members.{members_of};

    ghost view = { λ a. members_of a.list };

    ghost invariant = { λ a. AreKept a.list a.groups.entries };
}

impl Members {
    /// No member. It takes no memory.
    pub(crate) fn new(alloc: Global) -> Members
        ensures { result ≡ [] }
    {
        Members {
            alloc,
            list: IdList::new(alloc),
            groups: BTreeMap::new(alloc),
        }
    }

    /// What it takes memory from.
    pub(crate) fn allocator(&self) -> Global {
        self.alloc
    }

    /// How many there are.
    pub(crate) fn len(&self) -> usize
        ensures value { result ≡ length self.now }
        ensures few { length self.now ≤ POOL_LIMIT }
        ensures set { IsSet self.now }
        ensures elements { HaveElements self.now }
    {
        self.list.len()
    }

    /// The short id of an id.
    pub(crate) fn short_of(&self, id: &Hash32) -> Option<u32>
        ensures value { result ≡ option_map (λ m. m.short) (find (λ m. is_same_id m.id id.now) self.now) }
        ensures element { IfSome result (λ short. (0 < short) × (short < 2 ^ 32)) }
        ensures set { IsSet self.now }
    {
        self.list.get(id)
    }

    /// Whether an id is among them.
    pub(crate) fn contains(&self, id: &Hash32) -> bool
        ensures { result ≡ is_listed (ids_of self.now) id.now }
    {
        self.list.contains(id)
    }

    /// Whether one member alone has this short id.
    pub(crate) fn is_single(&self, short: u32) -> bool
        ensures value { result ≡ is_single self.now short }
        ensures elements { HaveElements self.now }
    {
        match self.groups.get(&short) {
            Some(group) => group.count == 1,
            None => false,
        }
    }

    /// Whether a short id is one of those that one member alone has.
    pub(crate) fn has_sketched(&self, short: u32) -> bool
        ensures { result ≡ list_any (λ other. other == short) (sketched_shorts self.now) }
    {
        self.is_single(short)
    }

    /// The id of the member that has this short id alone.
    pub(crate) fn by_short(&self, short: u32) -> Option<Hash32>
        ensures { result ≡ id_of_short self.now short }
    {
        let group = self.groups.get(&short).copied()?;
        if group.count != 1 {
            return None;
        }
        let entry = self.list.at(group.places).copied()?;
        Some(entry.id)
    }

    /// All ids, in order.
    pub(crate) fn ids(&self) -> Result<Hashes, OutOfMemory>
        ensures { IfOk result (λ ids. ids ≡ ids_of self.now) }
    {
        let mut ids = Vec::with_capacity(self.alloc, self.list.len())?;
        for entry in self.list.iter() {
            ids.push(entry.id)?;
        }
        Ok(Hashes::from_vec(ids))
    }

    /// The short ids that one member alone has, in order.
    pub(crate) fn sketched(&self) -> Result<Shorts, OutOfMemory>
        ensures value { IfOk result (λ shorts. shorts ≡ sketched_shorts self.now) }
        ensures elements { HaveElements self.now }
    {
        let mut shorts = Vec::new(self.alloc);
        for entry in self.list.iter() {
            if self.is_single(entry.value) {
                shorts.push(entry.value)?;
            }
        }
        Ok(Shorts::from_vec(shorts))
    }

    /// The ids of all other members, in order.
    pub(crate) fn aside(&self) -> Result<Hashes, OutOfMemory>
        ensures { IfOk result (λ ids. ids ≡ ids_of (colliding self.now)) }
    {
        let mut ids = Vec::new(self.alloc);
        for entry in self.list.iter() {
            if !self.is_single(entry.value) {
                ids.push(entry.id)?;
            }
        }
        Ok(Hashes::from_vec(ids))
    }

    /// Whether a short id is among these in ascending order, or isn't alone.
    fn is_announced(&self, sorted: &[u32], short: u32) -> bool
        requires { IsNonDecreasing sorted.now }
        ensures { result ≡ (list_any (λ other. other == short) sorted.now || not (is_single self.now short)) }
    {
        is_among(sorted, short) || !self.is_single(short)
    }

    /// The ids of the members whose short ids are among these in ascending order, and of those that aren't alone with
    /// theirs, in order.
    pub(crate) fn announced(&self, sorted: &[u32]) -> Result<Hashes, OutOfMemory>
        requires { IsNonDecreasing sorted.now }
        ensures { IfOk result (λ ids. ids ≡ ids_of (filter (λ m. list_any (λ other. other == m.short) sorted.now || not (is_single self.now m.short)) self.now)) }
    {
        let mut ids = Vec::with_capacity(self.alloc, sorted.len().min(self.list.len()))?;
        for entry in self.list.iter() {
            if self.is_announced(sorted, entry.value) {
                ids.push(entry.id)?;
            }
        }
        Ok(Hashes::from_vec(ids))
    }

    /// Puts a member at the end. Where memory runs out, all is as it was.
    pub(crate) fn push(&mut self, id: Hash32, short: u32) -> Result<(), OutOfMemory>
        requires absent { is_listed (ids_of self.old) id ≡ false }
        requires room { length self.old < POOL_LIMIT }
        requires nonzero { 0 < short }
        ensures ok { IfOk result (λ _. self.new ≡ self.old ++ record { id = id; short = short } ∷ []) }
        ensures err { OnErr result (self.new ≡ self.old) }
    {
        let place = self.list.push(id, short)?;
        let group = group_with(self.groups.get(&short).copied(), place);
        match self.groups.insert(short, group) {
            Ok(_) => Ok(()),
            Err(_) => {
                self.list.remove(&id);
                Err(OutOfMemory)
            }
        }
    }

    /// Takes a member out, and answers its short id. It takes no memory.
    pub(crate) fn remove(&mut self, id: &Hash32) -> Option<u32>
        ensures value { result ≡ option_map (λ m. m.short) (find (λ m. is_same_id m.id id.now) self.old) }
        ensures rest { self.new ≡ without_member self.old id.now }
    {
        let (place, short) = self.list.remove(id)?;
        take_place(&mut self.groups, short, place);
        Some(short)
    }
}

/// Whether a number is among these in ascending order.
fn is_among(sorted: &[u32], number: u32) -> bool
    requires { IsNonDecreasing sorted.now }
    ensures { result ≡ list_any (λ other. other == number) sorted.now }
{
    sorted.binary_search(&number).is_ok()
}

/// A group with one more member, at this place.
fn group_with(group: Option<Group>, place: u64) -> Group
    requires { IfSome group (λ g. g.count + 1 < 2 ^ 64) }
    ensures { result ≡ with_place group place }
{
    match group {
        Some(group) => Group {
            count: group.count + 1,
            places: group.places ^ place,
        },
        None => Group {
            count: 1,
            places: place,
        },
    }
}

/// Takes the member at this place out of the group of its short id.
fn take_place(groups: &mut BTreeMap<u32, Group>, short: u32, place: u64)
    requires { (g : Group) × (get nat_cmp groups.old short ≡ Some g) × (0 < g.count) }
    ensures { (g : Group) → get nat_cmp groups.old short ≡ Some g → (s : ℕ)
        → get nat_cmp groups.new s ≡ (if short == s then without_place g place else get nat_cmp groups.old s) }
{
    let Some(group) = groups.get(&short).copied() else {
        return;
    };
    if group.count == 1 {
        groups.remove(&short);
        return;
    }
    if let Some(kept) = groups.get_mut(&short) {
        kept.count -= 1;
        kept.places ^= place;
    }
}
