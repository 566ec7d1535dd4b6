//! The field of 2 ^ 32 elements, by one product at a time.

ghost use Rattle.std.specs.Prelude.{◌≡◌, ℕ, ◌<◌, ◌^◌};

use crate::Field;
use crate::carryless::product;
use crate::roots::artin_schreier_candidate;

/// An element of the field of 2 ^ 32 elements, modulo `x ^ 32 + x ^ 7 + x ^ 3 + x ^ 2 + 1`. Bit i is the coefficient
/// of `x ^ i`.
#[derive(Clone, Copy, PartialEq, Eq, PartialOrd, Ord, Debug)]
pub struct Gf32 {
    bits: u32,
    ghost small: { bits < 2 ^ 32 },
}

impl Gf32 {
    /// The element of these bits.
    pub fn new(bits: u32) -> Gf32
        ensures { ⟦<Gf32 as Field>⟧.bits_of result ≡ bits }
    {
        Gf32 { bits }
    }

    /// The bits of this element.
    pub fn get(self) -> u32
        ensures { result ≡ ⟦<Gf32 as Field>⟧.bits_of self }
    {
        self.bits
    }
}

impl Field for Gf32 {
    ghost use Rattle.std.specs.Prelude.{◌≡◌, ℕ, ◌<◌, ◌^◌, bit_xor, refl};
    ghost use Rattle.field_core.specs.Gf32.{bits_of, ops, zero_of, one_of, ring, numbered, field, separates};

    ghost BITS = { 32 };

    ghost ZERO = { zero_of };

    ghost ONE = { one_of };

    ghost ops = { ops };

    ghost bits_of = { bits_of };

    ghost ring = { ring };

    ghost numbered = { numbered };

    ghost field = { field };

    ghost separates = { separates };

    ghost zero_is = { refl };

    ghost one_is = { refl };

    ghost equal = { λ a b. refl };

    ghost ordered = { λ a b. refl };

    ghost copies = { λ a b e. e };

    const BITS: u32 = 32;

    const ZERO: Gf32 = Gf32 { bits: 0 };

    const ONE: Gf32 = Gf32 { bits: 1 };

    fn from_bits(bits: u64) -> Gf32 {
        Gf32 { bits: bits as u32 }
    }

    fn to_bits(self) -> u64 {
        self.bits as u64
    }

    fn basis(j: u32) -> Gf32 {
        Gf32 { bits: 1 << j }
    }

    fn add(self, b: Gf32) -> Gf32 {
        Gf32 {
            bits: self.bits ^ b.bits,
        }
    }

    fn mul(self, b: Gf32) -> Gf32 {
        Gf32 {
            bits: product(self.bits, b.bits),
        }
    }

    fn artin_schreier_root(self) -> Option<Gf32> {
        let y = Gf32::new(artin_schreier_candidate(self.bits));
        if y.square().add(y) == self {
            Some(y)
        } else {
            None
        }
    }
}
