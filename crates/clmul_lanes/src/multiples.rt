//! The multiples of one factor: tables by which its product with any element takes eight loads.

ghost use Rattle.std.specs.Prelude.{◌≡◌, ℕ, ◌<◌, ◌^◌, slice_index};
ghost use Rattle.field_rules.specs.Elements.{product};
ghost use Rattle.clmul_lanes.specs.Tables.{AreTables};

use crate::nibble_tables::nibble_sums;
use field_core::{NibbleTables, image};
use std::marker::Model;

/// The products of one factor with each value of each nibble of the other. A contract sees it as its factor.
#[derive(Drop)]
pub(crate) struct Multiples {
    factor: u32,
    tables: NibbleTables,
}

impl Model for Multiples {
    ghost Value = { ℕ };

    ghost view = { λ m. m.factor };

    ghost invariant = { λ m. (m.factor < 2 ^ 32) × AreTables m.factor m.tables };
}

impl Multiples {
    /// The multiples of `factor`. It costs about as much as ten products.
    pub fn of(factor: u32) -> Multiples
        ensures { result ≡ factor }
    {
        let mut tables = [[0; 16]; 8];
        let mut shifted = factor;
        for table in tables.iter_mut() {
            let multiples = nibble_multiples(shifted);
            *table = multiples;
            shifted = doubled(multiples[8]);
        }
        Multiples { factor, tables }
    }

    /// The product of the factor and `b`, both as the bits of elements of the field of 2 ^ 32 elements.
    pub fn times(&self, b: u32) -> u32
        ensures { result ≡ product 32 self.now b }
    {
        image(&self.tables, b)
    }
}

/// The multiples of `one` by the 16 polynomials of 4 bits.
pub(crate) fn nibble_multiples(one: u32) -> [u32; 16]
    ensures { (j : ℕ) → j < 16 → slice_index result j ≡ product 32 one j }
{
    let two = doubled(one);
    let four = doubled(two);
    let eight = doubled(four);
    nibble_sums!(one, two, four, eight)
}

/// The product of `a` and `x`.
pub(crate) fn doubled(a: u32) -> u32
    ensures { result ≡ product 32 a 2 }
{
    (a << 1) ^ ((a >> 31) * 0x8D)
}
