//! A list of ids, each with a value.

ghost use Rattle.std.specs.Prelude.{◌≡◌, ℕ, ◌+◌, ◌<◌, [], ◌∷◌, ◌++◌, List, false, length, map, Some, IsTrue, ◌↔◌, IfOk, OnErr, option_map};
ghost use Rattle.std.specs.Option.{option_copied};
ghost use Rattle.std.specs.List.{AllByRecursion};
ghost use Rattle.std.specs.Map.{values_of};
ghost use Rattle.std.specs.Map.Iter.{ShowsInOrder, deref};
ghost use Rattle.id_list.specs.declared.list.Entry.{Entry};
ghost use Rattle.pool_rules.specs.Pools.{is_listed, without_id, AreDistinctIds};
ghost use Rattle.id_list.specs.Entries.{ids_in, entry_of_id, entry_at, value_of_id, without_entry, without_entries};

use base_types::{Hash32, OutOfMemory};
use std::alloc::Global;
use std::collections::BTreeMap;
use std::collections::btree_map::Values;
use std::marker::Model;
use std::mem;

/// An id and its value.
#[derive(Clone, Copy, Debug, PartialEq, Eq)]
pub struct Entry<V: Copy> {
    pub id: Hash32,
    pub value: V,
}

/// A list of ids, none of which stands twice, each with a value. A contract sees it as the list of its entries in
/// order, each behind its place: a number of its own, which it keeps as long as it is in the list. What looks up, adds
/// or takes out one id costs in proportion to the logarithm of the length, whatever the ids are.
#[derive(Drop)]
pub struct IdList<V: Copy> {
    alloc: Global,
    entries: BTreeMap<u64, Entry<V>>,
    places: BTreeMap<Hash32, u64>,
    next: u64,
}

impl<V: Copy> Model for IdList<V> {
    ghost use Rattle.std.specs.Prelude.{List, ℕ};
    ghost use Rattle.id_list.specs.declared.list.Entry.{Entry};

    ghost Value = { List (ℕ × Entry V) };

    ghost use Rattle.id_list.specs.Invariant.{IsIndexed};

    ghost view = { λ l. l.entries.entries };

    ghost invariant = { λ l. IsIndexed l.entries.entries l.places.entries l.next };
}

impl<V: Copy> IdList<V> {
    /// The list of no id. It takes no memory.
    pub fn new(alloc: Global) -> IdList<V>
        ensures { result ≡ [] }
    {
        IdList {
            alloc,
            entries: BTreeMap::new(alloc),
            places: BTreeMap::new(alloc),
            next: 0,
        }
    }

    /// How many ids it has.
    pub fn len(&self) -> usize
        ensures value { result ≡ length self.now }
        ensures distinct { AreDistinctIds (ids_in self.now) }
    {
        self.entries.len()
    }

    /// The value of an id.
    pub fn get(&self, id: &Hash32) -> Option<V>
        ensures { result ≡ value_of_id self.now id.now }
    {
        let place = self.places.get(id)?;
        let entry = self.entries.get(place).copied()?;
        Some(entry.value)
    }

    /// Whether it has an id.
    pub fn contains(&self, id: &Hash32) -> bool
        ensures { result ≡ is_listed (ids_in self.now) id.now }
    {
        self.places.contains_key(id)
    }

    /// Puts an id at the end, and answers its place. Where memory runs out, the list is as it was.
    pub fn push(&mut self, id: Hash32, value: V) -> Result<u64, OutOfMemory>
        requires { is_listed (ids_in self.old) id ≡ false }
        ensures ok { IfOk result (λ place. self.new ≡ self.old ++ (place, record { id = id; value = value }) ∷ []) }
        ensures ids { IfOk result (λ _. ids_in self.new ≡ ids_in self.old ++ id ∷ []) }
        ensures err { OnErr result (self.new ≡ self.old) }
    {
        let place = self.next;
        if place == u64::MAX {
            return Err(OutOfMemory);
        }
        self.places.insert(id, place)?;
        match self.entries.insert(place, Entry { id, value }) {
            Ok(_) => {
                self.next = place + 1;
                Ok(place)
            }
            Err(_) => {
                self.places.remove(&id);
                Err(OutOfMemory)
            }
        }
    }

    /// Takes an id out, and answers its place and its value. It takes no memory, and the rest stays in order.
    pub fn remove(&mut self, id: &Hash32) -> Option<(u64, V)>
        ensures gone { option_map (λ e. (e.0, e.1.value)) (entry_of_id self.old id.now) ≡ result }
        ensures rest { self.new ≡ without_entry self.old id.now }
        ensures ids { ids_in self.new ≡ without_id (ids_in self.old) id.now }
    {
        let place = self.places.remove(id)?;
        let entry = self.entries.remove(&place)?;
        Some((place, entry.value))
    }

    /// Takes ids out, each that it has. It takes no memory, and the rest stays in order.
    pub fn remove_all(&mut self, ids: &[Hash32])
        ensures rest { self.new ≡ without_entries self.old ids.now }
    {
        for id in ids {
            self.remove(id);
        }
    }

    /// The entry at a place.
    pub fn at(&self, place: u64) -> Option<&Entry<V>>
        ensures value { option_copied result ≡ entry_at self.now place }
        ensures each { AllByRecursion (λ e. e.0 ≡ place → option_copied result ≡ Some e.1) self.now }
    {
        self.entries.get(&place)
    }

    /// The entries, in order.
    pub fn iter(&self) -> Values<'_, u64, Entry<V>>
        ensures rest { result ≡ values_of self.now }
        ensures runs { ShowsInOrder (deref {X = Entry V}) }
    {
        self.entries.values()
    }

    /// Whether it has no id.
    pub fn is_empty(&self) -> bool
        ensures { IsTrue result ↔ (self.now ≡ []) }
    {
        self.entries.is_empty()
    }

    /// Hands out all ids with their places, and leaves none. It takes no memory.
    pub fn take(&mut self) -> IdList<V>
        ensures taken { result ≡ self.old }
        ensures empty { self.new ≡ [] }
    {
        let alloc = self.alloc;
        mem::replace(self, IdList::new(alloc))
    }

    /// Takes all ids out.
    pub fn clear(&mut self)
        ensures { self.new ≡ [] }
    {
        self.entries.clear();
        self.places.clear();
        self.next = 0;
    }
}
