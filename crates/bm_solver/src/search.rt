//! Shortest recurrences.

ghost use Rattle.std.specs.Prelude.{◌≡◌, ◌≢◌, ◌+◌, ◌-◌, ◌*◌, ◌<◌, ◌≤◌, List, ◌∷◌, length, take, drop, reverse, IfOk};
ghost use Rattle.std.specs.List.{All};
ghost use Rattle.field_rules.specs.Fields.{dot_of};
ghost use Rattle.field_rules.specs.Lists.{AreDistinct};
ghost use Rattle.sketch_rules.specs.PowerSums.{power_sums};
ghost use Rattle.poly_rules.specs.Recurrences.{IsShortest};
ghost use Rattle.poly_rules.specs.Roots.{with_roots};

use crate::Locator;
use crate::solver::Solver;
use base_types::OutOfMemory;
use field_core::Field;
use std::alloc::Global;
use std::marker::Model;

/// A shortest recurrence of `sums`: it holds of all of them, and none shorter does. The algorithm of Berlekamp, in the
/// form of Massey 1969. Of the sums of a set of nonzero elements, at least twice as many as it has members, it is as long
/// as the set is large, and its monic polynomial is the product of `z + e` over the members e.
pub fn shortest<F: Field>(alloc: Global, sums: &[F]) -> Result<Locator<F>, OutOfMemory>
    ensures shortest { IfOk result (λ locator. IsShortest F.ops locator sums.now) }
    ensures within { IfOk result (λ locator. length locator ≤ length sums.now) }
    ensures set { (es : List F) → AreDistinct es → All (λ e. e ≢ F.ops.zero) es → 2 * length es ≤ length sums.now
        → sums.now ≡ power_sums F.ops es 1 (length sums.now)
        → IfOk result (λ locator. (length locator ≡ length es) × (reverse (F.ops.one ∷ locator) ≡ with_roots F.ops es)) }
{
    Search::over(alloc, sums)?.read(sums.len())?.recurrence()
}

/// A search for the shortest recurrence of some items, which reads them one after another, so that it can be looked at
/// in between. A contract sees the items, how many of them are read, and the recurrence's coefficients `c_1, .., c_L`.
#[derive(Drop)]
pub struct Search<'a, F: Field> {
    solver: Solver<'a, F>,
}

impl<'a, F: Field> Model for Search<'a, F> {
    ghost use Rattle.bm_solver.specs.Searches.{SearchState, IsSearching};
    ghost use Rattle.bm_solver.specs.Locators.{coefficients_of};

    ghost Value = { SearchState F };

    ghost view = { λ s. record { items = s.solver.items.now; read = s.solver.read; recurrence = coefficients_of s.solver.current.monic.items } };

    ghost invariant = { λ s. IsSearching F.ops s.solver.items.now s.solver.read
        s.solver.current.monic.items s.solver.saved.monic.items s.solver.inverse
        s.solver.current.discrepancies.items s.solver.saved.discrepancies.items s.solver.spare.discrepancies.items };
}

impl<'a, F: Field> Search<'a, F> {
    /// Nothing is read yet.
    pub fn over(alloc: Global, items: &'a [F]) -> Result<Search<'a, F>, OutOfMemory>
        ensures items { IfOk result (λ search. search.items ≡ items.now) }
        ensures read { IfOk result (λ search. search.read ≡ 0) }
    {
        let solver = Solver::new(alloc, items)?;
        Ok(Search { solver })
    }

    /// Reads the next `count` items.
    pub fn read(self, count: usize) -> Result<Search<'a, F>, OutOfMemory>
        requires { self.read + count ≤ length self.items }
        ensures items { IfOk result (λ search. search.items ≡ self.entry.items) }
        ensures read { IfOk result (λ search. search.read ≡ self.entry.read + count) }
    {
        let mut solver = self.solver;
        for _ in 0..count {
            solver.read_next()?;
        }
        Ok(Search { solver })
    }

    /// L.
    pub fn length(&self) -> usize
        ensures { result ≡ length self.now.recurrence }
    {
        self.solver.current.monic.len() - 1
    }

    /// What the next item and the recurrence's foretelling of it differ by. The recurrence is a shortest one of the items
    /// that are read.
    pub fn discrepancy(&self) -> F
        requires { self.now.read < length self.now.items }
        ensures value { result ≡ dot_of F.ops (reverse (F.ops.one ∷ self.now.recurrence))
            (drop (self.now.read - length self.now.recurrence) self.now.items) }
        ensures shortest { IsShortest F.ops self.now.recurrence (take self.now.read self.now.items) }
    {
        self.solver.current.discrepancies[self.solver.read]
    }

    /// The recurrence: a shortest one of the items that are read.
    pub fn recurrence(self) -> Result<Locator<F>, OutOfMemory>
        ensures value { IfOk result (λ locator. locator ≡ self.entry.recurrence) }
        ensures shortest { IfOk result (λ locator. IsShortest F.ops locator (take self.entry.read self.entry.items)) }
        ensures within { IfOk result (λ locator. length locator ≤ self.entry.read) }
    {
        let Solver { current, spare, .. } = self.solver;
        Locator::from_monic(current.monic, spare.monic)
    }
}
