//! Whether numbers are distinct, by a table of their seats. The answer may be that it isn't known.

ghost use Rattle.std.specs.Prelude.{◌≡◌, ◌^◌, ◌<◌, IfOk, IfSome, IsTrue};
ghost use Rattle.field_rules.specs.Lists.{AreDistinct};
ghost use Rattle.sketch_text.specs.Seats.{IsFreeSeat, home};

use std::alloc::{AllocError, Global};

/// The number of seats that a number may sit at, from its home on.
const REACH: usize = 256;

/// Where the seats for a number begin, of so many.
fn home_of(number: u32, seats: usize) -> usize
    ensures home { result ≡ home number seats }
    ensures small { result < 2 ^ 32 }
{
    // the golden ratio's multiples lie apart, also for numbers in a row
    let spread = u64::from(number.wrapping_mul(0x9E37_79B9));
    (spread.wrapping_mul(seats as u64) / 0x1_0000_0000) as usize
}

/// The first free seat from the number's home on, where it is within reach and the number has no seat before it.
fn free_seat(seats: &[u32], number: u32) -> Option<usize>
    ensures { IfSome result (λ seat. IsFreeSeat seats.now number seat) }
{
    let first = home_of(number, seats.len());
    for seat in first..seats.len().min(first + REACH) {
        if seats[seat] == 0 {
            return Some(seat);
        }
        if seats[seat] == number {
            return None;
        }
    }
    None
}

/// Whether it is found quickly that no two of the numbers are equal. For numbers other than 0 that are spread at random
/// that is so whenever no two are.
pub(crate) fn are_seen_distinct(alloc: Global, numbers: &[u32]) -> Result<bool, AllocError>
    ensures { IfOk result (λ seen. IsTrue seen → AreDistinct numbers.now) }
{
    let mut seats = vec![in alloc; 0u32; 2 * numbers.len() + REACH]?;
    for i in 0..numbers.len() {
        if numbers[i] == 0 {
            return Ok(false);
        }
        let Some(seat) = free_seat(seats.as_slice(), numbers[i]) else {
            return Ok(false);
        };
        seats[seat] = numbers[i];
    }
    Ok(true)
}
