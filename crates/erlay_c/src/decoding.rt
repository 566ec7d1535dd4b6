//! The set that a sketch is of.

ghost use Rattle.std.specs.Prelude.{◌≡◌, IfOk, map};
ghost use Rattle.erlay_c.specs.Answers.{IsDecodeAnswer};

use crate::refusal::Refusal;
use crate::sizes::is_sketch_size;
use base_types::{OutOfMemory, Shorts};
use clmul_lanes::Lane32;
use field_core::Field;
use set_difference::decode_bytes;
use sketch_core::Decoded;
use std::alloc::Global;

/// The set that has the sketch of these bytes, ascending, for which there is room for so many elements.
pub(crate) fn decode(alloc: Global, bytes: &[u8], room: usize) -> Result<Shorts, Refusal>
    ensures { IsDecodeAnswer bytes.now room result }
{
    if !is_sketch_size(bytes.len()) {
        return Err(Refusal::SketchSize);
    }
    match decode_bytes::<Lane32>(alloc, bytes) {
        Ok(Decoded::Found(set)) => {
            if room < set.as_slice().len() {
                return Err(Refusal::BufferTooShort);
            }
            Ok(numbers(alloc, set.as_slice())?)
        }
        Ok(Decoded::NoSet) => Err(Refusal::NoSet),
        Err(_) => Err(Refusal::OutOfMemory),
    }
}

/// The numbers of field elements, in order.
fn numbers(alloc: Global, elements: &[Lane32]) -> Result<Shorts, OutOfMemory>
    ensures { IfOk result (λ numbers. numbers ≡ map ⟦<Lane32 as Field>⟧.bits_of elements.now) }
{
    let numbers = elements.iter().map(|element| element.get()).collect(alloc)?;
    Ok(Shorts::from_vec(numbers))
}
