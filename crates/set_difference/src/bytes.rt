//! Sketches that come as bytes, read and decoded.

ghost use Rattle.std.specs.Prelude.{◌≡◌, ℕ, ◌^◌, ◌<◌, ◌≤◌, List, length, map, Some, MatchResult};
ghost use Rattle.std.specs.List.{All};
ghost use Rattle.field_rules.specs.Lists.{AreDistinct};
ghost use Rattle.sketch_rules.specs.Sets as sets;
ghost use Rattle.sketch_rules.specs.Sketches.{IsCapacity, bytes_of, sketch_sum, sketch_of};
ghost use Rattle.sketch_core.specs.Answered.{decoded_numbers};
ghost use Rattle.sketch_bytes.specs.Reading.{IsOutcome, sums_of_bytes};
ghost use Rattle.sketch_bytes.specs.declared.fault.BytesFault.TheVariants as bytes_fault;
ghost use Rattle.set_difference.specs.Answers.{IsAnswered, decoded, read_sum};
ghost use Rattle.set_difference.specs.declared.fault.DifferenceFault.TheVariants as difference_fault;

use crate::DifferenceFault;
use field_core::Field;
use sketch_bytes::{BytesFault, from_bytes};
use sketch_core::{Decoded, Sketch};
use std::alloc::Global;
use trace_roots::decode;

/// The set that has the sketch of these bytes: `decode` of what `from_bytes` reads. Of the bytes of the sum of two
/// sets' sketches it is the difference of the sets, where that has no more elements than a sketch has sums.
pub fn decode_bytes<F: Field>(alloc: Global, bytes: &[u8]) -> Result<Decoded<F>, BytesFault>
    requires { F.BITS ≡ 32 }
    ensures answer { IsAnswered F.bits_of bytes_fault.OutOfMemory (decoded (sums_of_bytes bytes.now)) result }
    ensures difference { (xs ys : List ℕ) (c : ℕ) → All (λ e. (0 < e) × (e < 2 ^ 32)) xs → All (λ e. (0 < e) × (e < 2 ^ 32)) ys
        → AreDistinct xs → AreDistinct ys → IsCapacity c → length (sets.difference xs ys) ≤ c
        → bytes.now ≡ bytes_of (sketch_sum (sketch_of xs c) (sketch_of ys c))
        → MatchResult result (λ found. decoded_numbers F.bits_of found ≡ Some (sets.difference xs ys)) (λ fault. fault ≡ bytes_fault.OutOfMemory) }
{
    let sketch = from_bytes(alloc, bytes)?;
    match decode(alloc, &sketch) {
        Ok(decoded) => Ok(decoded),
        Err(_) => Err(BytesFault::OutOfMemory),
    }
}

/// What two sets differ in, from the bytes of their sketches, which are of one capacity: the numbers that are in
/// exactly one of them, ascending, where these are no more than a sketch has sums.
pub fn difference<F: Field>(
    alloc: Global,
    ours: &[u8],
    theirs: &[u8],
) -> Result<Decoded<F>, DifferenceFault>
    requires { F.BITS ≡ 32 }
    ensures answer { IsAnswered F.bits_of difference_fault.OutOfMemory (decoded (read_sum ours.now theirs.now)) result }
    ensures difference { (xs ys : List ℕ) (c : ℕ) → All (λ e. (0 < e) × (e < 2 ^ 32)) xs → All (λ e. (0 < e) × (e < 2 ^ 32)) ys
        → AreDistinct xs → AreDistinct ys → IsCapacity c → length (sets.difference xs ys) ≤ c
        → ours.now ≡ bytes_of (sketch_of xs c) → theirs.now ≡ bytes_of (sketch_of ys c)
        → MatchResult result (λ found. decoded_numbers F.bits_of found ≡ Some (sets.difference xs ys)) (λ fault. fault ≡ difference_fault.OutOfMemory) }
{
    let sum = sum_of::<F>(alloc, ours, theirs)?;
    Ok(decode(alloc, &sum)?)
}

/// The sum of the sketches of these bytes.
fn sum_of<F: Field>(alloc: Global, ours: &[u8], theirs: &[u8]) -> Result<Sketch<F>, DifferenceFault>
    requires { F.BITS ≡ 32 }
    ensures { IsOutcome (map F.bits_of) difference_fault.OutOfMemory (read_sum ours.now theirs.now) result }
{
    let mut sum = match from_bytes::<F>(alloc, ours) {
        Ok(sketch) => sketch,
        Err(BytesFault::OutOfMemory) => return Err(DifferenceFault::OutOfMemory),
        Err(fault) => return Err(DifferenceFault::Ours(fault)),
    };
    let other = match from_bytes::<F>(alloc, theirs) {
        Ok(sketch) => sketch,
        Err(BytesFault::OutOfMemory) => return Err(DifferenceFault::OutOfMemory),
        Err(fault) => return Err(DifferenceFault::Theirs(fault)),
    };
    if sum.capacity() != other.capacity() {
        return Err(DifferenceFault::LengthsDiffer);
    }
    sum.merge_into(&other);
    Ok(sum)
}
