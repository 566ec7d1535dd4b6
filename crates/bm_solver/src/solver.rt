//! The search for the shortest recurrence, item by item.

ghost use Rattle.std.specs.Prelude.{◌≡◌, ℕ, ◌+◌, ◌-◌, ◌<◌, ◌≤◌, ◌++◌, length, replicate, IfOk};
ghost use Rattle.poly_rules.specs.Polynomials.{coefficient, sum_of, scalar_multiple};
ghost use Rattle.bm_solver.specs.Searches.{IsSearching};

use crate::candidate::Candidate;
use base_types::OutOfMemory;
use field_core::Field;
use std::alloc::Global;
use std::mem;

/// What is kept of the items read so far.
#[derive(Drop)]
pub struct Solver<'a, F: Field> {
    pub items: &'a [F],
    /// How many of them are read.
    pub read: usize,
    /// A shortest recurrence of these.
    pub current: Candidate<F>,
    /// What it was before it last grew, when it failed at an item.
    pub saved: Candidate<F>,
    /// Room for the next that is longer.
    pub spare: Candidate<F>,
    /// The inverse of the discrepancy of `saved` where it failed.
    pub inverse: F,
}

impl<'a, F: Field> Solver<'a, F> {
    /// Nothing is read yet.
    pub fn new(alloc: Global, items: &'a [F]) -> Result<Solver<'a, F>, OutOfMemory>
        ensures items { IfOk result (λ solver. solver.items.now ≡ items.now) }
        ensures read { IfOk result (λ solver. solver.read ≡ 0) }
        ensures so_far { IfOk result (λ solver. IsSearching F.ops items.now 0
            solver.current.monic.items solver.saved.monic.items solver.inverse
            solver.current.discrepancies.items solver.saved.discrepancies.items solver.spare.discrepancies.items) }
    {
        let current = Candidate::first(alloc, items)?;
        let saved = Candidate::first(alloc, items)?;
        let spare = Candidate::first(alloc, items)?;
        Ok(Solver {
            items,
            read: 0,
            current,
            saved,
            spare,
            inverse: F::ONE,
        })
    }

    /// Reads the next item. The discrepancies of all items behind it are carried along, so that an item takes a multiple
    /// of a list and no sum of products.
    pub fn read_next(&mut self) -> Result<(), OutOfMemory>
        requires inside { self.old.read < length self.old.items.now }
        requires so_far { IsSearching F.ops self.old.items.now self.old.read
            self.old.current.monic.items self.old.saved.monic.items self.old.inverse
            self.old.current.discrepancies.items self.old.saved.discrepancies.items self.old.spare.discrepancies.items }
        ensures items { self.new.items.now ≡ self.old.items.now }
        ensures read { self.new.read ≡ self.old.read + 1 }
        ensures so_far { IfOk result (λ _. IsSearching F.ops self.old.items.now (self.old.read + 1)
            self.new.current.monic.items self.new.saved.monic.items self.new.inverse
            self.new.current.discrepancies.items self.new.saved.discrepancies.items self.new.spare.discrepancies.items) }
    {
        let n = self.read;
        self.read = n + 1;
        let discrepancy = self.current.discrepancies[n];
        if discrepancy == F::ZERO {
            return Ok(());
        }
        let length = self.current.monic.len() - 1;
        let start = n - length;
        let factor = discrepancy.mul(self.inverse);
        let behind = length + (self.saved.monic.len() - 1);
        if start < length {
            let shift = length - start - 1;
            self.current.add(factor, &self.saved, shift, n + 1, behind);
        } else {
            self.grow(start - length + 1, factor, behind)?;
            self.inverse = discrepancy.inv();
        }
        Ok(())
    }

    /// Multiplies the current recurrence by `x ^ shift`, adds `k` times the saved one, and saves what it was. `behind` is
    /// the index behind the item where the saved one failed.
    fn grow(&mut self, shift: usize, k: F, behind: usize) -> Result<(), OutOfMemory>
        requires coefficients { length self.old.saved.monic.items ≤ shift + length self.old.current.monic.items }
        requires next { (behind ≤ self.old.read) × (self.old.read ≤ length self.old.current.discrepancies.items) }
        requires saved_size { length self.old.saved.discrepancies.items ≡ length self.old.current.discrepancies.items }
        requires spare_size { length self.old.spare.discrepancies.items ≡ length self.old.current.discrepancies.items }
        ensures items { self.new.items.now ≡ self.old.items.now }
        ensures read { self.new.read ≡ self.old.read }
        ensures monic { IfOk result (λ _. self.new.current.monic.items
            ≡ sum_of F.ops (replicate shift F.ops.zero ++ self.old.current.monic.items) (scalar_multiple F.ops k self.old.saved.monic.items)) }
        ensures discrepancies { IfOk result (λ _. (j : ℕ) → self.old.read ≤ j → j < length self.old.current.discrepancies.items
            → coefficient F.ops self.new.current.discrepancies.items j ≡ F.ops.plus (coefficient F.ops self.old.current.discrepancies.items j)
            (F.ops.times k (coefficient F.ops self.old.saved.discrepancies.items (behind + (j - self.old.read))))) }
        ensures saved { IfOk result (λ _. self.new.saved ≡ self.old.current) }
        ensures current_size { IfOk result (λ _. length self.new.current.discrepancies.items ≡ length self.old.current.discrepancies.items) }
        ensures room_size { IfOk result (λ _. length self.new.spare.discrepancies.items ≡ length self.old.current.discrepancies.items) }
    {
        self.spare.set_raised(&self.current, shift, self.read)?;
        self.spare.add(k, &self.saved, 0, self.read, behind);
        mem::swap(&mut self.saved, &mut self.current);
        mem::swap(&mut self.current, &mut self.spare);
        Ok(())
    }
}
