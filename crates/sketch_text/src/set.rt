//! The set that a text lists.

ghost use Rattle.std.specs.Prelude.{◌≡◌, ◌<◌, ◌^◌, map, IfOk};
ghost use Rattle.std.specs.List.{All};
ghost use Rattle.field_rules.specs.Lists.{AreDistinct};
ghost use Rattle.sketch_text_rules.specs.Elements.{set_in};
ghost use Rattle.line_text.specs.Gives.{IsOutcome};

use crate::reading::{line_number, read};
use crate::repeats::first_repeat;
use base_types::{Kind, TextFault};
use clmul_lanes::Lane32;
use field_core::Field;
use line_text::ReadStop;
use std::alloc::{AllocError, Global};

/// The field elements of these numbers, in order.
fn field_elements(alloc: Global, numbers: &[u32]) -> Result<Vec<Lane32>, AllocError>
    ensures { IfOk result (λ elements. map ⟦<Lane32 as Field>⟧.bits_of elements.items ≡ numbers.now) }
{
    let mut elements = Vec::with_capacity(alloc, numbers.len())?;
    for number in numbers {
        elements.push(Lane32::new(*number))?;
    }
    Ok(elements)
}

/// The set that the text lists, in the order of its lines. The first faulty line is named, whichever fault it has.
pub fn set_of(alloc: Global, text: &[u8]) -> Result<Vec<Lane32>, ReadStop>
    ensures gives { IsOutcome (λ es. map ⟦<Lane32 as Field>⟧.bits_of es.items) result (set_in text.now) }
    ensures elements { IfOk result (λ es. All (λ e. (0 < e) × (e < 2 ^ 32)) (map ⟦<Lane32 as Field>⟧.bits_of es.items)) }
    ensures distinct { IfOk result (λ es. AreDistinct (map ⟦<Lane32 as Field>⟧.bits_of es.items)) }
{
    let reading = read(alloc, text)?;
    if let Some(index) = first_repeat(alloc, reading.numbers.as_slice())? {
        return Err(ReadStop::Fault(TextFault {
            place: line_number(text, index),
            kind: Kind::Repeated,
        }));
    }
    if let Some(fault) = reading.fault {
        return Err(ReadStop::Fault(fault));
    }
    Ok(field_elements(alloc, reading.numbers.as_slice())?)
}
