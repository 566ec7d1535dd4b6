//! Sketches as bytes and as lines of text, both ways.
#![tactic(auto)]

ghost use Rattle.std.specs.Prelude.{◌≡◌, ◌⊎◌, ℕ, ◌%◌, ◌^◌, ◌<◌, List, false, length, map, take, slice_index, IfOk, IfErr};
ghost use Rattle.std.specs.List.{All, AllPass};
ghost use Rattle.hex.specs.Hex.{encode_upper, is_hex_digit};
ghost use Rattle.sketch_rules.specs.Sketches.{IsCapacity, bytes_of, digits_of, sums_in};
ghost use Rattle.sketch_bytes.specs.Reading.{IsOutcome, sums_of_bytes, sums_of_line};
ghost use Rattle.sketch_bytes.specs.declared.fault.BytesFault.TheVariants as bytes_fault;
ghost use Rattle.sketch_bytes.specs.declared.fault.LineFault.TheVariants as line_fault;

mod fault;
#[cfg(test)]
mod tests;

use base_types::{Bytes, OutOfMemory};
pub use fault::{BytesFault, LineFault};
use field_core::Field;
use sketch_core::Sketch;
use sketch_rules::MAX_SKETCH_BYTES;
use std::alloc::{AllocError, Global};

/// The sums as bytes: 4 for each, the lowest first.
pub fn to_bytes<F: Field>(alloc: Global, sums: &[F]) -> Result<Bytes, OutOfMemory>
    requires { F.BITS ≡ 32 }
    ensures { IfOk result (λ bytes. bytes ≡ bytes_of (map F.bits_of sums.now)) }
{
    let mut bytes = Vec::new(alloc);
    for sum in sums {
        let word = sum.to_bits() as u32;
        bytes.extend_from_slice(&word.to_le_bytes())?;
    }
    Ok(Bytes::from_vec(bytes))
}

/// A sketch as a line of text: the digits of its bytes in lower case, two for each byte, without a line end.
pub fn to_line<F: Field>(alloc: Global, sketch: &Sketch<F>) -> Result<Bytes, OutOfMemory>
    requires { F.BITS ≡ 32 }
    ensures { IfOk result (λ line. line ≡ digits_of (map F.bits_of sketch.now)) }
{
    let bytes = to_bytes(alloc, sketch.sums())?;
    let digits = hex::encode(alloc, bytes.as_slice())?;
    Ok(Bytes::from_vec(digits.into_bytes()))
}

/// The sketch whose sums the bytes are, 4 bytes for each, the lowest first.
pub fn from_bytes<F: Field>(alloc: Global, bytes: &[u8]) -> Result<Sketch<F>, BytesFault>
    requires { F.BITS ≡ 32 }
    ensures read { IsOutcome (map F.bits_of) bytes_fault.OutOfMemory (sums_of_bytes bytes.now) result }
    ensures refused { IfErr (sums_of_bytes bytes.now) (λ fault. result ≡ Err fault) }
    ensures sums { IfOk result (λ s. map F.bits_of s ≡ sums_in bytes.now) }
    ensures spelled { IfOk result (λ s. bytes_of (map F.bits_of s) ≡ bytes.now) }
    ensures accepted { (sums : List ℕ) → IsCapacity (length sums) → All (λ s. s < 2 ^ 32) sums → bytes.now ≡ bytes_of sums
        → IsOutcome (map F.bits_of) bytes_fault.OutOfMemory (Ok sums) result }
{
    if bytes.is_empty() {
        return Err(BytesFault::EmptySketch);
    }
    if bytes.len() % 4 != 0 {
        return Err(BytesFault::RaggedLength(bytes.len() as u64));
    }
    if MAX_SKETCH_BYTES < bytes.len() {
        return Err(BytesFault::TooWide(bytes.len() as u64));
    }
    let sums = sums_of(alloc, bytes)?;
    Ok(Sketch::from_sums(sums))
}

/// The sketch of a line of text, which has the digits of its bytes in either case, two for each byte, and no line end.
pub fn from_line<F: Field>(alloc: Global, line: &[u8]) -> Result<Sketch<F>, LineFault>
    requires { F.BITS ≡ 32 }
    ensures read { IsOutcome (map F.bits_of) (line_fault.Bytes bytes_fault.OutOfMemory) (sums_of_line line.now) result }
    ensures odd { length line.now % 2 ≡ 1 → result ≡ Err line_fault.OddDigits }
    ensures bad_digit { (offset : ℕ) → result ≡ Err (line_fault.BadDigit offset)
        → (offset < length line.now) × (is_hex_digit (slice_index line.now offset) ≡ false) × AllPass is_hex_digit (take offset line.now) }
    ensures accepted { (sums : List ℕ) → IsCapacity (length sums) → All (λ s. s < 2 ^ 32) sums
        → (line.now ≡ digits_of sums) ⊎ (line.now ≡ encode_upper (bytes_of sums))
        → IsOutcome (map F.bits_of) (line_fault.Bytes bytes_fault.OutOfMemory) (Ok sums) result }
{
    let bytes = hex::decode(alloc, line)?;
    Ok(from_bytes(alloc, bytes.as_slice())?)
}

/// The sums that bytes spell, 4 bytes each.
fn sums_of<F: Field>(alloc: Global, bytes: &[u8]) -> Result<Vec<F>, AllocError>
    requires width { F.BITS ≡ 32 }
    requires whole { length bytes.now % 4 ≡ 0 }
    ensures { IfOk result (λ sums. map F.bits_of sums.items ≡ sums_in bytes.now) }
{
    let mut sums = Vec::with_capacity(alloc, bytes.len() / 4)?;
    for i in 0..bytes.len() / 4 {
        let word = u32::from_le_bytes([
            bytes[4 * i],
            bytes[4 * i + 1],
            bytes[4 * i + 2],
            bytes[4 * i + 3],
        ]);
        sums.push(F::from_bits(word as u64))?;
    }
    Ok(sums)
}
