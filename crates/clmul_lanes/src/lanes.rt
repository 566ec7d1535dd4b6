//! Sixteen numbers at once, in the lanes of vectors.

ghost use Rattle.std.specs.Prelude.{◌≡◌, ◌/◌, ◌%◌, map, slice_index};

use std::simd::prelude::*;

/// The upper half of each byte.
#[inline(always)]
pub fn upper_halves(bytes: u8x16) -> u8x16
    ensures { result ≡ map (λ b. b / 16) bytes }
{
    bytes >> u8x16::splat(4)
}

/// What a table of sixteen bytes has at the lower half of each byte.
#[inline(always)]
pub fn looked_up(table: u8x16, bytes: u8x16) -> u8x16
    ensures { result ≡ map (λ b. slice_index table (b % 16)) bytes }
{
    table.swizzle_dyn(bytes & u8x16::splat(15))
}
