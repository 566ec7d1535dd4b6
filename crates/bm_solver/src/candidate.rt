//! Recurrences while they are searched, with what they give along the items.

ghost use Rattle.std.specs.Prelude.{◌≡◌, ℕ, ◌+◌, ◌-◌, ◌<◌, ◌≤◌, [], ◌∷◌, ◌++◌, length, drop, replicate, IfOk};
ghost use Rattle.poly_rules.specs.Polynomials.{coefficient, sum_of, scalar_multiple};

use base_types::OutOfMemory;
use field_core::Field;
use std::alloc::Global;

/// A recurrence.
#[derive(Drop)]
pub struct Candidate<F: Field> {
    /// Its monic form, `c_L, .., c_1, 1`, or a multiple of it.
    pub monic: Vec<F>,
    /// For each item what it and the recurrence's foretelling of it differ by. Those of the first items are no longer
    /// kept up.
    pub discrepancies: Vec<F>,
}

impl<F: Field> Candidate<F> {
    /// That of length 0, which foretells zeros. There is room for the coefficients of any that comes to be, so that no
    /// later call takes memory.
    pub fn first(alloc: Global, items: &[F]) -> Result<Candidate<F>, OutOfMemory>
        ensures monic { IfOk result (λ c. c.monic.items ≡ F.ops.one ∷ []) }
        ensures discrepancies { IfOk result (λ c. c.discrepancies.items ≡ items.now) }
    {
        let mut monic = Vec::with_capacity(alloc, items.len().saturating_add(1))?;
        monic.push(F::ONE)?;
        let discrepancies = Vec::from_slice(alloc, items)?;
        Ok(Candidate {
            monic,
            discrepancies,
        })
    }

    /// Becomes another, multiplied by `x ^ shift`, with its discrepancies from the index `next` on.
    pub fn set_raised(
        &mut self,
        other: &Candidate<F>,
        shift: usize,
        next: usize,
    ) -> Result<(), OutOfMemory>
        requires next { next ≤ length self.old.discrepancies.items }
        requires sizes { length other.now.discrepancies.items ≡ length self.old.discrepancies.items }
        ensures monic { IfOk result (λ _. self.new.monic.items ≡ replicate shift F.ops.zero ++ other.now.monic.items) }
        ensures size { length self.new.discrepancies.items ≡ length self.old.discrepancies.items }
        ensures discrepancies { IfOk result (λ _. (j : ℕ) → next ≤ j → j < length self.old.discrepancies.items
            → coefficient F.ops self.new.discrepancies.items j ≡ coefficient F.ops other.now.discrepancies.items j) }
    {
        self.monic.clear();
        self.monic.resize(shift, F::ZERO)?;
        self.monic.extend_from_slice(other.monic.as_slice())?;
        copy_behind(
            self.discrepancies.as_mut_slice(),
            next,
            other.discrepancies.as_slice(),
        );
        Ok(())
    }

    /// Adds `k` times another, multiplied by `x ^ shift`, and its discrepancies from the index `behind` on to those from
    /// the index `next` on.
    pub fn add(&mut self, k: F, other: &Candidate<F>, shift: usize, next: usize, behind: usize)
        requires coefficients { shift + length other.now.monic.items ≤ length self.old.monic.items }
        requires next { (behind ≤ next) × (next ≤ length self.old.discrepancies.items) }
        requires sizes { length other.now.discrepancies.items ≡ length self.old.discrepancies.items }
        ensures monic { self.new.monic.items ≡ sum_of F.ops self.old.monic.items
            (replicate shift F.ops.zero ++ scalar_multiple F.ops k other.now.monic.items) }
        ensures size { length self.new.discrepancies.items ≡ length self.old.discrepancies.items }
        ensures discrepancies { (j : ℕ) → next ≤ j → j < length self.old.discrepancies.items
            → coefficient F.ops self.new.discrepancies.items j ≡ F.ops.plus (coefficient F.ops self.old.discrepancies.items j)
            (F.ops.times k (coefficient F.ops other.now.discrepancies.items (behind + (j - next)))) }
    {
        add_multiple(self.monic.as_mut_slice(), shift, k, other.monic.as_slice());
        add_behind(
            self.discrepancies.as_mut_slice(),
            next,
            k,
            other.discrepancies.as_slice(),
            behind,
        );
    }
}

/// Adds `k` times `f`, multiplied by `x ^ shift`.
fn add_multiple<F: Field>(acc: &mut [F], shift: usize, k: F, f: &[F])
    requires { shift + length f.now ≤ length acc.old }
    ensures { acc.new ≡ sum_of F.ops acc.old (replicate shift F.ops.zero ++ scalar_multiple F.ops k f.now) }
{
    F::axpy(&mut acc[shift..shift + f.len()], k, f);
}

/// Copies the items from the index `next` on.
fn copy_behind<F: Field>(acc: &mut [F], next: usize, items: &[F])
    requires next { next ≤ length acc.old }
    requires sizes { length items.now ≡ length acc.old }
    ensures size { length acc.new ≡ length acc.old }
    ensures each { (j : ℕ) → next ≤ j → j < length acc.old → coefficient F.ops acc.new j ≡ coefficient F.ops items.now j }
{
    acc[next..].copy_from_slice(&items[next..]);
}

/// Adds to the items from the index `next` on `k` times those from the index `behind` on.
fn add_behind<F: Field>(acc: &mut [F], next: usize, k: F, items: &[F], behind: usize)
    requires next { (behind ≤ next) × (next ≤ length acc.old) }
    requires sizes { length items.now ≡ length acc.old }
    ensures size { length acc.new ≡ length acc.old }
    ensures each { (j : ℕ) → next ≤ j → j < length acc.old
        → coefficient F.ops acc.new j ≡ F.ops.plus (coefficient F.ops acc.old j) (F.ops.times k (coefficient F.ops items.now (behind + (j - next)))) }
{
    let count = items.len() - next;
    F::axpy(&mut acc[next..], k, &items[behind..behind + count]);
}
