//! Four products at once, each of two polynomials over GF(2), and their remainders.

ghost use Rattle.std.specs.Prelude.{◌≡◌, ℕ, ◌/◌, ◌%◌, ◌^◌, ◌<◌, map, slice_index, bit_xor};
ghost use Rattle.field_rules.specs.Elements.{carryless_product, remainder};

use std::simd::prelude::*;

/// The products of the polynomials at each index, not reduced.
pub fn product4(a: [u32; 4], b: [u32; 4]) -> [u64; 4]
    ensures { (k : ℕ) → k < 4 → slice_index result k ≡ carryless_product 32 (slice_index a k) (slice_index b k) }
{
    let first = u64x4::from_array([a[0] as u64, a[1] as u64, a[2] as u64, a[3] as u64]);
    let second = u64x4::from_array([b[0] as u64, b[1] as u64, b[2] as u64, b[3] as u64]);
    let mut sum = u64x4::splat(0);
    for i in 0..32u64 {
        let bits = (second >> u64x4::splat(i)) & u64x4::splat(1);
        sum = sum ^ ((first << u64x4::splat(i)) & (u64x4::splat(0) - bits));
    }
    sum.to_array()
}

/// The remainders by `x ^ 32 + x ^ 7 + x ^ 3 + x ^ 2 + 1`.
pub fn reduce4(p: [u64; 4]) -> [u32; 4]
    ensures { (k : ℕ) → k < 4 → slice_index result k ≡ remainder 32 32 (slice_index p k) }
{
    let once = folded4(u64x4::from_array([p[0], p[1], p[2], p[3]]));
    folded4(once).cast::<u32>().to_array()
}

/// What may stand for each where only its remainder counts: its terms from `x ^ 32` on are replaced by their product
/// with the modulus's lower terms.
#[inline(always)]
fn folded4(p: u64x4) -> u64x4
    ensures { result ≡ map (λ q. bit_xor (q % 2 ^ 32) (carryless_product 8 (q / 2 ^ 32) 0x8D)) p }
{
    let high = p >> u64x4::splat(32);
    (p & u64x4::splat(0xffff_ffff))
        ^ (high ^ (high << u64x4::splat(2)) ^ (high << u64x4::splat(3)) ^ (high << u64x4::splat(7)))
}
