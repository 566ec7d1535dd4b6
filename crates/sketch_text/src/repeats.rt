//! The first of some numbers that repeats an earlier one.

ghost use Rattle.std.specs.Prelude.{◌≡◌, IfOk, MatchOption};
ghost use Rattle.std.specs.List.{Contains};
ghost use Rattle.std.specs.List.Sorted.{IsNonDecreasing};
ghost use Rattle.field_rules.specs.Lists.{AreDistinct};
ghost use Rattle.sketch_text.specs.Repeats.{HasRepeats, IsFirstRepeat, IsIndexOf};

use crate::seats::are_seen_distinct;
use std::alloc::{AllocError, Global};

/// How many numbers a table of seats is made for at most. It takes 8 bytes a number, half a megabyte at this limit; more
/// numbers are sorted, in half of the memory.
const TABLE_LIMIT: usize = 1 << 16;

/// Of numbers in ascending order, those that are equal to the one before them.
fn repeats_of(alloc: Global, sorted: &[u32]) -> Result<Vec<u32>, AllocError>
    requires { IsNonDecreasing sorted.now }
    ensures repeated { IfOk result (λ repeats. HasRepeats repeats.items sorted.now) }
    ensures rising { IfOk result (λ repeats. IsNonDecreasing repeats.items) }
{
    let mut repeats = Vec::new(alloc);
    for i in 1..sorted.len() {
        if sorted[i - 1] == sorted[i] {
            repeats.push(sorted[i])?;
        }
    }
    Ok(repeats)
}

/// The first index of a number among numbers in ascending order.
fn index_of(sorted: &[u32], number: u32) -> Option<usize>
    requires { IsNonDecreasing sorted.now }
    ensures { MatchOption result (¬ Contains sorted.now number) (IsIndexOf sorted.now number) }
{
    let index = sorted.partition_point(|other| *other < number);
    if index < sorted.len() && sorted[index] == number {
        Some(index)
    } else {
        None
    }
}

/// The index of the first number that repeats an earlier one. Each number that is listed among `repeats` is marked
/// there where it comes first.
fn first_marked(
    alloc: Global,
    numbers: &[u32],
    repeats: &[u32],
) -> Result<Option<usize>, AllocError>
    requires repeated { HasRepeats repeats.now numbers.now }
    requires rising { IsNonDecreasing repeats.now }
    ensures { IfOk result (λ index. MatchOption index (AreDistinct numbers.now) (IsFirstRepeat numbers.now)) }
{
    let mut marked = vec![in alloc; false; repeats.len()]?;
    for i in 0..numbers.len() {
        if let Some(index) = index_of(repeats, numbers[i]) {
            if marked[index] {
                return Ok(Some(i));
            }
            marked[index] = true;
        }
    }
    Ok(None)
}

/// The index of the first number that repeats an earlier one.
pub(crate) fn first_repeat(alloc: Global, numbers: &[u32]) -> Result<Option<usize>, AllocError>
    ensures { IfOk result (λ index. MatchOption index (AreDistinct numbers.now) (IsFirstRepeat numbers.now)) }
{
    if numbers.len() <= TABLE_LIMIT && are_seen_distinct(alloc, numbers)? {
        return Ok(None);
    }
    let mut sorted = numbers.to_vec(alloc)?;
    sorted.sort_unstable();
    let repeats = repeats_of(alloc, sorted.as_slice())?;
    if repeats.is_empty() {
        return Ok(None);
    }
    first_marked(alloc, numbers, repeats.as_slice())
}
