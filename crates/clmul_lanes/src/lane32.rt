//! The field of 2 ^ 32 elements, whose work on lists is done many items at once.

ghost use Rattle.std.specs.Prelude.{◌≡◌, ℕ, ◌<◌, ◌^◌};

use crate::axpy::{axpy_by_lanes, axpy_by_products};
use crate::conjugates::{power_2, power_8, power_128, power_32768};
use crate::fractions::add_power_sums;
use crate::odd_powers::{add_by_lanes, add_by_products};
use field_core::{Field, artin_schreier_candidate, carryless_product, product, reduce};

/// From how many items on the tables of a factor are worth making.
const TABLES_PAY_FROM: usize = 8;

/// From how many items on powers are worth making sixteen at a time.
const BLOCKS_PAY_FROM: usize = 16;

/// An element of the field of 2 ^ 32 elements, modulo `x ^ 32 + x ^ 7 + x ^ 3 + x ^ 2 + 1`. Bit i is the coefficient
/// of `x ^ i`.
#[derive(Clone, Copy, PartialEq, Eq, PartialOrd, Ord, Debug)]
pub struct Lane32 {
    bits: u32,
    ghost small: { bits < 2 ^ 32 },
}

impl Lane32 {
    /// The element of these bits.
    pub fn new(bits: u32) -> Lane32
        ensures { ⟦<Lane32 as Field>⟧.bits_of result ≡ bits }
    {
        Lane32 { bits }
    }

    /// The bits of this element.
    pub fn get(self) -> u32
        ensures { result ≡ ⟦<Lane32 as Field>⟧.bits_of self }
    {
        self.bits
    }
}

impl Field for Lane32 {
    ghost use Rattle.std.specs.Prelude.{◌≡◌, ℕ, ◌<◌, ◌^◌, bit_xor, refl};
    ghost use Rattle.clmul_lanes.specs.Lane32.{bits_of, ops, zero_of, one_of, ring, numbered, field, separates};

    ghost BITS = { 32 };

    ghost ZERO = { zero_of };

    ghost ONE = { one_of };

    ghost ops = { ops };

    ghost bits_of = { bits_of };

    ghost ring = { ring };

    ghost numbered = { numbered };

    ghost field = { field };

    ghost separates = { separates };

    ghost zero_is = { refl };

    ghost one_is = { refl };

    ghost equal = { λ a b. refl };

    ghost ordered = { λ a b. refl };

    ghost copies = { λ a b e. e };

    const BITS: u32 = 32;

    const ZERO: Lane32 = Lane32 { bits: 0 };

    const ONE: Lane32 = Lane32 { bits: 1 };

    fn from_bits(bits: u64) -> Lane32 {
        Lane32 { bits: bits as u32 }
    }

    fn to_bits(self) -> u64 {
        self.bits as u64
    }

    fn basis(j: u32) -> Lane32 {
        Lane32 { bits: 1 << j }
    }

    fn add(self, b: Lane32) -> Lane32 {
        Lane32 {
            bits: self.bits ^ b.bits,
        }
    }

    fn mul(self, b: Lane32) -> Lane32 {
        Lane32 {
            bits: product(self.bits, b.bits),
        }
    }

    fn square(self) -> Lane32 {
        power_2(self)
    }

    // the powers by 2^n - 1 for n = 1, 2, 3, 6, 7, 14, 15, 30, 31: that for i + j is that for i, raised to the power
    // by 2^j, times that for j
    fn inv(self) -> Lane32 {
        let p1 = self;
        let p2 = p1.square().mul(p1);
        let p3 = p2.square().mul(p1);
        let p6 = power_8(p3).mul(p3);
        let p7 = p6.square().mul(p1);
        let p14 = power_128(p7).mul(p7);
        let p15 = p14.square().mul(p1);
        let p30 = power_32768(p15).mul(p15);
        let p31 = p30.square().mul(p1);
        p31.square()
    }

    fn artin_schreier_root(self) -> Option<Lane32> {
        let y = Lane32::new(artin_schreier_candidate(self.bits));
        if y.square().add(y) == self {
            Some(y)
        } else {
            None
        }
    }

    fn axpy(acc: &mut [Lane32], k: Lane32, x: &[Lane32]) {
        if acc.len() < TABLES_PAY_FROM {
            axpy_by_products(acc, k, x)
        } else {
            axpy_by_lanes(acc, k, x)
        }
    }

    // the carryless products are added up, and their sum is reduced once
    fn dot(x: &[Lane32], y: &[Lane32]) -> Lane32 {
        let mut sum: u64 = 0;
        for i in 0..x.len() {
            sum ^= carryless_product(x[i].bits, y[i].bits);
        }
        Lane32 { bits: reduce(sum) }
    }

    fn odd_powers_into(acc: &mut [Lane32], e: Lane32) {
        if acc.len() < BLOCKS_PAY_FROM {
            add_by_products(acc, e)
        } else {
            add_by_lanes(acc, e)
        }
    }

    fn power_sums_into(acc: &mut [Lane32], elements: &[Lane32]) {
        add_power_sums(acc, elements)
    }
}
