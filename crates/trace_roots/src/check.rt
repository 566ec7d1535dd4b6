//! Whether a list of elements is the set that some sums are of.

ghost use Rattle.std.specs.Prelude.{◌≡◌, ◌↔◌, ℕ, ◌*◌, ◌^◌, ◌<◌, ◌≤◌, List, length, map, IfOk, IsTrue};
ghost use Rattle.sketch_rules.specs.PowerSums.{IsAllSums};
ghost use Rattle.sketch_rules.specs.Sketches.{IsCapacity};
ghost use Rattle.sketch_rules.specs.Answers.{IsAscending, Answer};
ghost use Rattle.trace_roots.specs.Agreeing.{AreAtOddPowers};

use base_types::OutOfMemory;
use field_core::Field;
use sketch_core::Sketch;
use std::alloc::Global;

/// Whether the items are a set of nonzero elements, ascending, that has the sums of odd powers among `sums`, which are
/// `s_1, s_2, .., s_(2c)`, and is no larger than c.
pub fn is_answer<F: Field>(alloc: Global, items: &[F], sums: &[F]) -> Result<bool, OutOfMemory>
    requires { (m : List F) × IsCapacity (length m) × IsAllSums F.ops m sums.now }
    ensures sound { (m : List F) → IsAllSums F.ops m sums.now
        → IfOk result (λ yes. IsTrue yes → Answer F.BITS (map F.bits_of m) (map F.bits_of items.now)) }
    ensures complete { (m : List F) → IsAllSums F.ops m sums.now → Answer F.BITS (map F.bits_of m) (map F.bits_of items.now)
        → IfOk result (λ yes. IsTrue yes) }
{
    let capacity = sums.len() / 2;
    if items.len() > capacity || !is_ascending(items) {
        return Ok(false);
    }
    let Ok(sketch) = Sketch::of(alloc, items, capacity) else {
        return Err(OutOfMemory);
    };
    Ok(agrees(sketch.sums(), sums))
}

/// Whether the items are nonzero and ascending, each once.
fn is_ascending<F: Field>(items: &[F]) -> bool
    ensures { IsTrue result ↔ IsAscending 1 (2 ^ F.BITS) (map F.bits_of items.now) }
{
    let mut last = F::ZERO;
    for item in items {
        if *item <= last {
            return false;
        }
        last = *item;
    }
    true
}

/// Whether the sums of odd powers are those that stand among the sums of all powers.
fn agrees<F: Field>(odd: &[F], sums: &[F]) -> bool
    requires { 2 * length odd.now ≤ length sums.now }
    ensures { IsTrue result ↔ AreAtOddPowers F.ops odd.now sums.now }
{
    for i in 0..odd.len() {
        if odd[i] != sums[2 * i] {
            return false;
        }
    }
    true
}
