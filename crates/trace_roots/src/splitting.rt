//! The set that has given sums.

ghost use Rattle.std.specs.Prelude.{◌≡◌, ℕ, ◌*◌, ◌≤◌, List, ◌∷◌, length, map, reverse, IfOk, IfSome, IsSome, OnOk};
ghost use Rattle.std.specs.List.Sorted.{IsPermutation};
ghost use Rattle.field_rules.specs.Lists.{AreDistinct};
ghost use Rattle.sketch_rules.specs.PowerSums.{IsAllSums};
ghost use Rattle.sketch_rules.specs.Sketches.{IsCapacity};
ghost use Rattle.sketch_rules.specs.Answers.{answer_at};
ghost use Rattle.poly_rules.specs.Recurrences.{IsShortest};
ghost use Rattle.poly_rules.specs.Roots.{with_roots};
ghost use Rattle.std.specs.Option.{option_map};

use crate::check::is_answer;
use crate::members::find_members;
use crate::part::Part;
use base_types::OutOfMemory;
use bm_solver::{Locator, monic};
use field_core::Field;
use std::alloc::Global;

/// The set of nonzero elements that has these sums `s_1, s_2, .., s_(2c)`, ascending, of at most c elements; or none,
/// where there is no such set. The sums are all sums of a sketch of capacity c, and the locator is their shortest
/// recurrence, of a length of at most c.
pub fn split<F: Field>(
    alloc: Global,
    locator: &Locator<F>,
    sums: &[F],
) -> Result<Option<Vec<F>>, OutOfMemory>
    requires all { (m : List F) × IsCapacity (length m) × IsAllSums F.ops m sums.now }
    requires shortest { IsShortest F.ops locator.now sums.now }
    requires fits { 2 * length locator.now ≤ length sums.now }
    ensures { (m : List F) → IsAllSums F.ops m sums.now → IfOk result (λ found. option_map (λ v. map F.bits_of v.items) found ≡ answer_at F.BITS (map F.bits_of m)) }
{
    let Some(mut members) = candidates(alloc, locator)? else {
        return Ok(None);
    };
    members.sort()?;
    if is_answer(alloc, members.as_slice(), sums)? {
        Ok(Some(members))
    } else {
        Ok(None)
    }
}

/// The members of the set whose polynomial is the recurrence's monic form, in any order. Where it is no set's, what is
/// found has no meaning.
fn candidates<F: Field>(alloc: Global, locator: &Locator<F>) -> Result<Option<Vec<F>>, OutOfMemory>
    ensures found { (es : List F) → AreDistinct es → reverse (F.ops.one ∷ locator.now) ≡ with_roots F.ops es → IfOk result IsSome }
    ensures members { (es : List F) → AreDistinct es → reverse (F.ops.one ∷ locator.now) ≡ with_roots F.ops es
        → IfOk result (λ found. IfSome found (λ v. IsPermutation es v.items)) }
{
    let n = locator.length();
    let mut found = Vec::with_capacity(alloc, n)?;
    if n == 0 {
        return Ok(Some(found));
    }
    let part = Part {
        locator: monic(alloc, locator)?,
        traces: Vec::new(alloc),
    };
    if find_members(alloc, part, 0, &mut found)? {
        Ok(Some(found))
    } else {
        Ok(None)
    }
}
