//! Sketches that change.

ghost use Rattle.erlay_c.specs.Answers.{IsToggleAnswer, IsMergeAnswer, IsReadAnswer};

use crate::refusal::Refusal;
use crate::sizes::is_sketch_size;
use base_types::Bytes;
use clmul_lanes::Lane32;
use field_core::Field;
use sketch_bytes::{from_bytes, to_bytes};
use sketch_core::Sketch;
use std::alloc::Global;

/// The sketch of these bytes.
fn read(alloc: Global, bytes: &[u8]) -> Result<Sketch<Lane32>, Refusal>
    ensures { IsReadAnswer bytes.now result }
{
    if !is_sketch_size(bytes.len()) {
        return Err(Refusal::SketchSize);
    }
    match from_bytes(alloc, bytes) {
        Ok(sketch) => Ok(sketch),
        Err(_) => Err(Refusal::OutOfMemory),
    }
}

/// The bytes of the sketch of the set with the element put in, or taken out where the set has it.
pub(crate) fn toggle(alloc: Global, bytes: &[u8], element: u32) -> Result<Bytes, Refusal>
    ensures { IsToggleAnswer bytes.now element result }
{
    if !is_sketch_size(bytes.len()) {
        return Err(Refusal::SketchSize);
    }
    if element == 0 {
        return Err(Refusal::ZeroElement);
    }
    let mut sketch = read(alloc, bytes)?;
    sketch.toggle(Lane32::new(element));
    Ok(to_bytes(alloc, sketch.sums())?)
}

/// The bytes of the sketch of what is in exactly one of the two sets.
pub(crate) fn merge(alloc: Global, ours: &[u8], theirs: &[u8]) -> Result<Bytes, Refusal>
    ensures { IsMergeAnswer ours.now theirs.now result }
{
    if !is_sketch_size(ours.len()) || !is_sketch_size(theirs.len()) {
        return Err(Refusal::SketchSize);
    }
    if ours.len() != theirs.len() {
        return Err(Refusal::SizesDiffer);
    }
    let mut sketch = read(alloc, ours)?;
    let other = read(alloc, theirs)?;
    sketch.merge_into(&other);
    Ok(to_bytes(alloc, sketch.sums())?)
}
