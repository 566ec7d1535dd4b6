//! The multiples of one factor by sixteen elements at once: tables of bytes, which shuffles look up.

ghost use Rattle.std.specs.Prelude.{◌≡◌, ℕ, ◌*◌, ◌/◌, ◌%◌, ◌<◌, ◌^◌, List, map};
ghost use Rattle.std.specs.Simd.Lanes.{Each1};
ghost use Rattle.std.proofs.Common.{Fits, w32};
ghost use Rattle.field_rules.specs.Elements.{product};
ghost use Rattle.clmul_lanes.specs.Planes.{byte_of, ArePlanes};
ghost use Rattle.clmul_lanes.specs.Tables.{AreByteTables};

use crate::lanes::{looked_up, upper_halves};
use crate::multiples::{doubled, nibble_multiples};
use crate::planes::{Planes, byte_up, planes_of};
use std::simd::prelude::*;

/// The products of one factor with each value of each nibble of the other, byte by byte.
pub type ByteTables = [Planes; 8];

/// The planes of the products of the tables' factor and each word, all as the bits of elements of the field of 2 ^ 32
/// elements.
#[inline(always)]
pub fn planes_of_products(t: &ByteTables, planes: Planes) -> Planes
    ensures { (factor : ℕ) (words : List ℕ) → factor < 2 ^ 32 → AreByteTables factor t.now → Each1 (Fits w32) words → ArePlanes words planes
        → ArePlanes (map (λ w. product 32 factor w) words) result }
{
    [
        plane_of_products(t, planes, 0),
        plane_of_products(t, planes, 1),
        plane_of_products(t, planes, 2),
        plane_of_products(t, planes, 3),
    ]
}

/// Byte `index` of the product of each word and the factor of the tables.
#[inline(always)]
fn plane_of_products(t: &ByteTables, planes: Planes, index: usize) -> u8x16
    requires { index < 4 }
    ensures { (factor : ℕ) (words : List ℕ) → factor < 2 ^ 32 → AreByteTables factor t.now → Each1 (Fits w32) words → ArePlanes words planes
        → result ≡ map (λ w. byte_of index (product 32 factor w)) words }
{
    let (first, second) = (planes[0], planes[1]);
    let (third, fourth) = (planes[2], planes[3]);
    let low = (looked_up(t[0][index], first) ^ looked_up(t[1][index], upper_halves(first)))
        ^ (looked_up(t[2][index], second) ^ looked_up(t[3][index], upper_halves(second)));
    let high = (looked_up(t[4][index], third) ^ looked_up(t[5][index], upper_halves(third)))
        ^ (looked_up(t[6][index], fourth) ^ looked_up(t[7][index], upper_halves(fourth)));
    low ^ high
}

/// The tables of a factor's multiples: those of the lowest two nibbles, and each of the others from the one two nibbles
/// below it. They cost about as much as two products.
pub fn byte_tables(factor: u32) -> ByteTables
    ensures { AreByteTables factor result }
{
    let even = nibble_multiples(factor);
    let odd = nibble_multiples(doubled(even[8]));
    let (first, second) = (planes_of(even), planes_of(odd));
    let (third, fourth) = (byte_up(first), byte_up(second));
    let (fifth, sixth) = (byte_up(third), byte_up(fourth));
    let (seventh, eighth) = (byte_up(fifth), byte_up(sixth));
    [first, second, third, fourth, fifth, sixth, seventh, eighth]
}
