//! The set of some numbers.

ghost use Rattle.std.specs.Prelude.{◌≡◌, ◌↔◌, IsTrue, IfOk, map};
ghost use Rattle.std.specs.List.Sorted.{IsNonDecreasing};
ghost use Rattle.field_rules.specs.Lists.{AreDistinct};
ghost use Rattle.erlay_c.specs.Answers.{IsSetAnswer};

use crate::refusal::Refusal;
use base_types::{Elems, OutOfMemory};
use clmul_lanes::Lane32;
use field_core::Field;
use std::alloc::Global;

/// The field elements of these numbers, in order, none of which may be 0 or come twice.
pub(crate) fn set_of(alloc: Global, numbers: &[u32]) -> Result<Elems<Lane32>, Refusal>
    ensures { IsSetAnswer numbers.now result }
{
    if numbers.contains(&0) {
        return Err(Refusal::ZeroElement);
    }
    if !are_distinct(alloc, numbers)? {
        return Err(Refusal::RepeatedElement);
    }
    Ok(field_elements(alloc, numbers)?)
}

/// Whether no number comes twice.
fn are_distinct(alloc: Global, numbers: &[u32]) -> Result<bool, OutOfMemory>
    ensures { IfOk result (λ distinct. IsTrue distinct ↔ AreDistinct numbers.now) }
{
    let mut sorted = numbers.to_vec(alloc)?;
    sorted.sort_unstable();
    Ok(are_distinct_in_order(sorted.as_slice()))
}

/// Whether no number comes twice among numbers in ascending order.
fn are_distinct_in_order(sorted: &[u32]) -> bool
    requires { IsNonDecreasing sorted.now }
    ensures { IsTrue result ↔ AreDistinct sorted.now }
{
    for i in 1..sorted.len() {
        if sorted[i - 1] == sorted[i] {
            return false;
        }
    }
    true
}

/// The field elements of these numbers, in order.
fn field_elements(alloc: Global, numbers: &[u32]) -> Result<Elems<Lane32>, OutOfMemory>
    ensures { IfOk result (λ elements. map ⟦<Lane32 as Field>⟧.bits_of elements ≡ numbers.now) }
{
    let mut elements = Vec::with_capacity(alloc, numbers.len())?;
    for number in numbers {
        elements.push(Lane32::new(*number))?;
    }
    Ok(Elems::from_vec(elements))
}
