//! The sketches as a library for C: calls over numbers and slices, which answer a code.
#![tactic(auto)]

ghost use Rattle.std.specs.Prelude.{◌≡◌, ◌*◌, ◌≤◌, ℕ, List, [], ◌∷◌, length};
ghost use Rattle.sketch_rules.specs.Sets.{difference};
ghost use Rattle.sketch_rules.specs.Sketches.{IsCapacity, bytes_of, sketch_of};
ghost use Rattle.sketch_rules.specs.declared.limits.TheConstants.{MAX_CAPACITY};
ghost use Rattle.erlay_c.specs.Answers.{IsMakeAnswer, IsToggleAnswer, IsMergeAnswer, IsDecodeAnswer, IsSet};
ghost use Rattle.erlay_c.specs.Calls.{HasAnswered, HasAnsweredSet, HasFound};

mod change;
mod decoding;
mod making;
mod refusal;
mod set;
mod sizes;
mod writing;

use sketch_rules::MAX_CAPACITY;
use std::alloc::Global;

/// The greatest capacity that a sketch may have. The least is 1.
#[unsafe(no_mangle)]
pub extern "C" fn erlay_max_capacity() -> usize
    ensures { result ≡ MAX_CAPACITY }
{
    MAX_CAPACITY
}

/// How many bytes a sketch of this capacity has, and 0 where no sketch has this capacity.
#[unsafe(no_mangle)]
pub extern "C" fn erlay_sketch_size(capacity: usize) -> usize
    ensures size { IsCapacity capacity → result ≡ 4 * capacity }
    ensures none { ¬ IsCapacity capacity → result ≡ 0 }
{
    if capacity < 1 || MAX_CAPACITY < capacity {
        return 0;
    }
    4 * capacity
}

/// Writes the sketch of some elements, which may come in any order, into the front of `sketch`.
#[unsafe(no_mangle)]
pub extern "C" fn erlay_make(
    alloc: Global,
    elements: &[u32],
    capacity: usize,
    sketch: &mut [u8],
) -> u32
    ensures { HasAnswered (IsMakeAnswer elements.now capacity (length sketch.old)) sketch.old sketch.new result }
{
    let outcome = making::make(alloc, elements, capacity, sketch.len());
    writing::write_front(sketch, outcome)
}

/// Puts an element into the set of a sketch, or takes it out where the set has it.
#[unsafe(no_mangle)]
pub extern "C" fn erlay_toggle(alloc: Global, sketch: &mut [u8], element: u32) -> u32
    ensures answer { HasAnswered (IsToggleAnswer sketch.old element) sketch.old sketch.new result }
    ensures set { (xs : List ℕ) (c : ℕ) → IsSet xs → sketch.old ≡ bytes_of (sketch_of xs c)
        → result ≡ 0 → sketch.new ≡ bytes_of (sketch_of (difference xs (element ∷ [])) c) }
{
    let outcome = change::toggle(alloc, sketch, element);
    writing::write_front(sketch, outcome)
}

/// Makes the first sketch that of what is in exactly one of the two sets.
#[unsafe(no_mangle)]
pub extern "C" fn erlay_merge(alloc: Global, sketch: &mut [u8], other: &[u8]) -> u32
    ensures answer { HasAnswered (IsMergeAnswer sketch.old other.now) sketch.old sketch.new result }
    ensures set { (xs ys : List ℕ) (c : ℕ) → IsSet xs → IsSet ys → sketch.old ≡ bytes_of (sketch_of xs c) → other.now ≡ bytes_of (sketch_of ys c)
        → result ≡ 0 → sketch.new ≡ bytes_of (sketch_of (difference xs ys) c) }
{
    let outcome = change::merge(alloc, sketch, other);
    writing::write_front(sketch, outcome)
}

/// Writes the set that has the sketch, ascending, into the front of `elements`, and how many these are into `count`.
#[unsafe(no_mangle)]
pub extern "C" fn erlay_decode(
    alloc: Global,
    sketch: &[u8],
    elements: &mut [u32],
    count: &mut usize,
) -> u32
    ensures answer { HasAnsweredSet (IsDecodeAnswer sketch.now (length elements.old)) elements.old elements.new count.old count.new result }
    ensures difference { (xs ys : List ℕ) (c : ℕ) → IsSet xs → IsSet ys → IsCapacity c → length (difference xs ys) ≤ c → length (difference xs ys) ≤ length elements.old
        → sketch.now ≡ bytes_of (sketch_of (difference xs ys) c)
        → HasFound (difference xs ys) elements.old elements.new count.new result }
{
    let outcome = decoding::decode(alloc, sketch, elements.len());
    writing::write_set(elements, count, outcome)
}
