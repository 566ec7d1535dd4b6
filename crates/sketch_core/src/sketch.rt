//! A sketch of a set: the sums of the odd powers of its elements.

ghost use Rattle.std.specs.Prelude.{◌≡◌, ◌≢◌, ℕ, ◌+◌, ◌-◌, ◌*◌, ◌<◌, ◌≤◌, List, [], ◌∷◌, ◌++◌, length, map, replicate, take, drop, IfOk, IfErr, OnOk};
ghost use Rattle.std.specs.List.{All};
ghost use Rattle.field_rules.specs.Ops.{with_odd_powers};
ghost use Rattle.field_rules.specs.Lists.{AreDistinct, sums_of_both};
ghost use Rattle.sketch_rules.specs.PowerSums.{IsAllSums, power_sums, sketch_by, odd_power_sums};
ghost use Rattle.sketch_rules.specs.Sets.{difference};
ghost use Rattle.sketch_rules.specs.Sketches.{IsCapacity, sketch_sum, sketch_at};
ghost use Rattle.sketch_rules.specs.declared.limits.TheConstants.{MAX_CAPACITY};
ghost use Rattle.sketch_core.specs.Refusals.{IsRefusal};
ghost use Rattle.sketch_core.specs.declared.fault.SketchFault.TheVariants.{CapacityOutOfRange};

use crate::SketchFault;
use base_types::OutOfMemory;
use field_core::Field;
use sketch_rules::MAX_CAPACITY;
use std::alloc::Global;
use std::marker::Model;

/// The sums `s_1, s_3, .., s_(2c - 1)` of the odd powers of the elements of a set, where c is the capacity. A contract
/// sees a sketch as the list of its sums.
#[derive(Debug, Drop)]
pub struct Sketch<F: Field> {
    sums: Vec<F>,
}

impl<F: Field> Model for Sketch<F> {
    ghost use Rattle.std.specs.Prelude.{List, length};
    ghost use Rattle.sketch_rules.specs.Sketches.{IsCapacity};

    ghost Value = { List F };

    ghost view = { λ s. s.sums.items };

    ghost invariant = { λ s. IsCapacity (length s.sums.items) };
}

impl<F: Field> Sketch<F> {
    /// The sketch of the empty set, all of whose sums are 0.
    pub fn empty(alloc: Global, capacity: usize) -> Result<Sketch<F>, SketchFault>
        ensures ok { IfOk result (λ s. s ≡ replicate capacity F.ops.zero) }
        ensures in_range { OnOk result (IsCapacity capacity) }
        ensures refused { IfErr result (IsRefusal capacity) }
        ensures out_of_range { ¬ IsCapacity capacity → result ≡ Err (CapacityOutOfRange capacity) }
    {
        Ok(Sketch {
            sums: zeros(alloc, capacity)?,
        })
    }

    /// The sketch of a set, whose elements may come in any order.
    pub fn of(alloc: Global, elements: &[F], capacity: usize) -> Result<Sketch<F>, SketchFault>
        requires nonzero { All (λ e. e ≢ F.ops.zero) elements.now }
        requires distinct { AreDistinct elements.now }
        ensures ok { IfOk result (λ s. s ≡ sketch_by F.ops elements.now capacity) }
        ensures in_range { OnOk result (IsCapacity capacity) }
        ensures refused { IfErr result (IsRefusal capacity) }
        ensures out_of_range { ¬ IsCapacity capacity → result ≡ Err (CapacityOutOfRange capacity) }
    {
        let mut sums = zeros(alloc, capacity)?;
        F::power_sums_into(sums.as_mut_slice(), elements);
        Ok(Sketch { sums })
    }

    /// The sketch of these sums, the first power's first. It takes no memory beyond theirs.
    pub fn from_sums(sums: Vec<F>) -> Sketch<F>
        requires { IsCapacity (length sums.items) }
        ensures { result ≡ sums.items }
    {
        Sketch { sums }
    }

    /// Puts an element into the set, or takes it out where the set has it.
    pub fn toggle(&mut self, e: F)
        requires { e ≢ F.ops.zero }
        ensures sums { self.new ≡ with_odd_powers F.ops e 0 self.old }
        ensures set { (es : List F) → self.old ≡ sketch_by F.ops es (length self.old)
            → self.new ≡ sketch_by F.ops (es ++ e ∷ []) (length self.old) }
        ensures capacity { length self.new ≡ length self.old }
    {
        F::odd_powers_into(self.sums.as_mut_slice(), e);
    }

    /// Makes this the sketch of what is in exactly one of the two sets, by adding the sums of `other`, which is of
    /// the same capacity.
    pub fn merge_into(&mut self, other: &Sketch<F>)
        requires { length other.now ≡ length self.old }
        ensures sums { self.new ≡ sums_of_both F.ops self.old other.now }
        ensures numbers { map F.bits_of self.new ≡ sketch_sum (map F.bits_of self.old) (map F.bits_of other.now) }
        ensures difference { (xs ys : List ℕ) → AreDistinct xs → AreDistinct ys
            → map F.bits_of self.old ≡ sketch_at F.BITS xs (length self.old)
            → map F.bits_of other.now ≡ sketch_at F.BITS ys (length self.old)
            → map F.bits_of self.new ≡ sketch_at F.BITS (difference xs ys) (length self.old) }
        ensures capacity { length self.new ≡ length self.old }
    {
        add_each(self.sums.as_mut_slice(), other.sums());
    }

    /// The sketch of the same set at capacity `k`.
    pub fn prefix(&self, alloc: Global, k: usize) -> Result<Sketch<F>, OutOfMemory>
        requires { (1 ≤ k) × (k ≤ length self.now) }
        ensures ok { IfOk result (λ s. s ≡ take k self.now) }
        ensures set { (es : List F) → self.now ≡ sketch_by F.ops es (length self.now)
            → IfOk result (λ s. s ≡ sketch_by F.ops es k) }
    {
        let sums = Vec::from_slice(alloc, &self.sums.as_slice()[..k])?;
        Ok(Sketch { sums })
    }

    /// The sums at the indices from `from` on and below `to`: what a sketch of capacity `from` lacks to be one of
    /// capacity `to`.
    pub fn extension(&self, alloc: Global, from: usize, to: usize) -> Result<Vec<F>, OutOfMemory>
        requires { (from < to) × (to ≤ length self.now) }
        ensures ok { IfOk result (λ v. v.items ≡ take (to - from) (drop from self.now)) }
        ensures set { (es : List F) → self.now ≡ sketch_by F.ops es (length self.now)
            → IfOk result (λ v. v.items ≡ odd_power_sums F.ops es from (to - from)) }
    {
        Ok(Vec::from_slice(alloc, &self.sums.as_slice()[from..to])?)
    }

    /// The sketch of the longer capacity, of one of the shorter and of what it lacks. Where memory runs out, `first` is
    /// dropped.
    pub fn join(first: Sketch<F>, ext: &[F]) -> Result<Sketch<F>, OutOfMemory>
        requires { length first + length ext.now ≤ MAX_CAPACITY }
        ensures ok { IfOk result (λ s. s ≡ first ++ ext.now) }
        ensures set { (es : List F) → first ≡ sketch_by F.ops es (length first)
            → ext.now ≡ odd_power_sums F.ops es (length first) (length ext.now)
            → IfOk result (λ s. s ≡ sketch_by F.ops es (length first + length ext.now)) }
    {
        let mut sums = first.sums;
        sums.extend_from_slice(ext)?;
        Ok(Sketch { sums })
    }

    /// The sums s_1, s_2, .., s_(2c) of all powers, which those of odd powers determine.
    pub fn all_sums(&self, alloc: Global) -> Result<Vec<F>, OutOfMemory>
        ensures ok { IfOk result (λ v. IsAllSums F.ops self.now v.items) }
        ensures set { (es : List F) → self.now ≡ sketch_by F.ops es (length self.now)
            → IfOk result (λ v. v.items ≡ power_sums F.ops es 1 (2 * length self.now)) }
    {
        with_even_sums(alloc, self.sums.as_slice())
    }

    /// How many sums it has.
    pub fn capacity(&self) -> usize
        ensures value { result ≡ length self.now }
        ensures range { IsCapacity result }
    {
        self.sums.len()
    }

    /// The sums, the first power's first.
    pub fn sums(&self) -> &[F]
        ensures { result.now ≡ self.now }
    {
        self.sums.as_slice()
    }
}

/// As many zeros as a sketch of this capacity has sums.
fn zeros<F: Field>(alloc: Global, capacity: usize) -> Result<Vec<F>, SketchFault>
    ensures ok { IfOk result (λ sums. sums.items ≡ replicate capacity F.ops.zero) }
    ensures in_range { OnOk result (IsCapacity capacity) }
    ensures refused { IfErr result (IsRefusal capacity) }
    ensures out_of_range { ¬ IsCapacity capacity → result ≡ Err (CapacityOutOfRange capacity) }
{
    if capacity < 1 || MAX_CAPACITY < capacity {
        return Err(SketchFault::CapacityOutOfRange(capacity));
    }
    Ok(vec![in alloc; F::ZERO; capacity]?)
}

/// Adds each item to the one at its index.
fn add_each<F: Field>(sums: &mut [F], more: &[F])
    requires { length more.now ≡ length sums.old }
    ensures { sums.new ≡ sums_of_both F.ops sums.old more.now }
{
    for (i, sum) in sums.iter_mut().enumerate() {
        *sum = sum.add(more[i]);
    }
}

/// The sums of odd powers, each followed by the square of the sum of half the next power.
fn with_even_sums<F: Field>(alloc: Global, odd: &[F]) -> Result<Vec<F>, OutOfMemory>
    requires { length odd.now ≤ MAX_CAPACITY }
    ensures { IfOk result (λ v. IsAllSums F.ops odd.now v.items) }
{
    let mut sums = Vec::with_capacity(alloc, 2 * odd.len())?;
    for (i, sum) in odd.iter().enumerate() {
        sums.push(*sum)?;
        let half = sums[i];
        sums.push(half.square())?;
    }
    Ok(sums)
}
