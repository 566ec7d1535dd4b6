//! Sketches of elements.

ghost use Rattle.erlay_c.specs.Answers.{IsMakeAnswer};

use crate::refusal::Refusal;
use crate::set::set_of;
use base_types::Bytes;
use sketch_bytes::to_bytes;
use sketch_core::Sketch;
use sketch_rules::MAX_CAPACITY;
use std::alloc::Global;

/// The bytes of the sketch of some elements, for which there is room for so many bytes.
pub(crate) fn make(
    alloc: Global,
    elements: &[u32],
    capacity: usize,
    room: usize,
) -> Result<Bytes, Refusal>
    ensures { IsMakeAnswer elements.now capacity room result }
{
    if capacity < 1 || MAX_CAPACITY < capacity {
        return Err(Refusal::CapacityOutOfRange);
    }
    if room < 4 * capacity {
        return Err(Refusal::BufferTooShort);
    }
    let set = set_of(alloc, elements)?;
    let Ok(sketch) = Sketch::of(alloc, set.as_slice(), capacity) else {
        return Err(Refusal::OutOfMemory);
    };
    Ok(to_bytes(alloc, sketch.sums())?)
}
