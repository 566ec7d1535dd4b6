//! The set that a sketch is of.

ghost use Rattle.std.specs.Prelude.{◌≡◌, ◌↔◌, ℕ, ◌≤◌, ◌<◌, ◌^◌, List, length, map, IfOk, Some};
ghost use Rattle.std.specs.List.{All};
ghost use Rattle.field_rules.specs.Lists.{AreDistinct};
ghost use Rattle.sketch_rules.specs.Answers.{Answer, answer_at};
ghost use Rattle.sketch_rules.specs.Sets.{difference};
ghost use Rattle.sketch_rules.specs.Sketches.{sketch_sum, sketch_at};
ghost use Rattle.sketch_core.specs.Answered.{decoded_numbers};

use crate::splitting::split;
use base_types::{Elems, OutOfMemory};
use bm_solver::shortest;
use field_core::Field;
use sketch_core::{Decoded, Sketch};
use std::alloc::Global;

/// The set of nonzero elements that has exactly this sketch, ascending, of at most as many elements as the capacity;
/// or that there is none. PinSketch, in Dodis, Ostrovsky, Reyzin and Smith, Fuzzy Extractors, section 6.3.
pub fn decode<F: Field>(alloc: Global, sketch: &Sketch<F>) -> Result<Decoded<F>, OutOfMemory>
    ensures answer { IfOk result (λ decoded. decoded_numbers F.bits_of decoded ≡ answer_at F.BITS (map F.bits_of sketch.now)) }
    ensures exactly { IfOk result (λ decoded. (es : List ℕ) → (decoded_numbers F.bits_of decoded ≡ Some es) ↔ Answer F.BITS (map F.bits_of sketch.now) es) }
    ensures difference { (xs ys : List ℕ) → All (λ e. (0 < e) × (e < 2 ^ F.BITS)) xs → All (λ e. (0 < e) × (e < 2 ^ F.BITS)) ys
        → AreDistinct xs → AreDistinct ys → length (difference xs ys) ≤ length sketch.now
        → map F.bits_of sketch.now ≡ sketch_sum (sketch_at F.BITS xs (length sketch.now)) (sketch_at F.BITS ys (length sketch.now))
        → IfOk result (λ decoded. decoded_numbers F.bits_of decoded ≡ Some (difference xs ys)) }
{
    let sums = sketch.all_sums(alloc)?;
    let locator = shortest(alloc, sums.as_slice())?;
    if locator.length() > sketch.capacity() {
        return Ok(Decoded::NoSet);
    }
    match split(alloc, &locator, sums.as_slice())? {
        Some(members) => Ok(Decoded::Found(Elems::from_vec(members))),
        None => Ok(Decoded::NoSet),
    }
}
