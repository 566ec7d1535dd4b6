//! The sums of the first eight odd powers of many elements. An element's cube takes a product, and each power above it is
//! a product of two factors that keep sums: so one factor is added up by the nibbles of the other, and few products are
//! made in the end.

ghost use Rattle.std.specs.Prelude.{◌≡◌, ℕ, ◌<◌, ◌≤◌, List, length, map, slice_index_or};
ghost use Rattle.field_rules.specs.Fields.{conjugate, dot_of};
ghost use Rattle.field_rules.specs.Lists.{sums_of_both};
ghost use Rattle.sketch_rules.specs.PowerSums.{odd_power_sums};
ghost use Rattle.clmul_lanes.specs.Lane32.{ops, zero_of};
ghost use Rattle.clmul_lanes.specs.NibbleValues.{AreNibbleValues};

use crate::Lane32;
use crate::conjugates::{power_2, power_8};
use crate::rows::nibble;
use field_core::Field;

/// An element for each value v of each nibble i, where 0 is the lowest: at index 16 i + v.
type ByNibble = [Lane32; 128];

/// Adds to up to eight items, each at its index i, the sum of the `(2i + 1)`-th powers of the elements.
pub fn add_gathered(acc: &mut [Lane32], elements: &[Lane32])
    requires { length acc.old ≤ 8 }
    ensures { acc.new ≡ sums_of_both ops acc.old (odd_power_sums ops elements.now 0 (length acc.old)) }
{
    let sums = eight_sums(elements);
    for i in 0..acc.len() {
        acc[i] = acc[i].add(sums[i]);
    }
}

/// The sums of the powers by 1, 3, .. 15.
fn eight_sums(elements: &[Lane32]) -> [Lane32; 8]
    ensures { result ≡ odd_power_sums ops elements.now 0 8 }
{
    let (mut first, mut third) = (Lane32::new(0), Lane32::new(0));
    let mut own = [Lane32::ZERO; 128];
    let mut cubes = [Lane32::ZERO; 128];
    let mut cubes_own = [Lane32::ZERO; 128];
    for e in elements {
        let cube = e.square().mul(*e);
        first = first.add(*e);
        third = third.add(cube);
        add_at_nibbles(&mut own, *e, *e);
        add_at_nibbles(&mut cubes, *e, cube);
        add_at_nibbles(&mut cubes_own, cube, cube);
    }
    let values = nibble_values();
    let (fourth, eighth) = (fourth_powers(&values), eighth_powers(&values));
    [
        first,
        third,
        Lane32::dot(&fourth, &own),
        Lane32::dot(&fourth, &cubes),
        Lane32::dot(&eighth, &own),
        Lane32::dot(&eighth, &cubes),
        Lane32::dot(&values, &fourth_powers(&cubes)),
        Lane32::dot(&fourth, &cubes_own),
    ]
}

/// Adds a value to the sum at each nibble of a key.
#[inline(always)]
fn add_at_nibbles(sums: &mut ByNibble, key: Lane32, value: Lane32)
    ensures { (j m : ℕ) (values : List Lane32) → AreNibbleValues values
        → dot_of ops (map (conjugate ops j) values) (map (conjugate ops m) sums.new)
        ≡ ops.plus (dot_of ops (map (conjugate ops j) values) (map (conjugate ops m) sums.old)) (ops.times (conjugate ops j key) (conjugate ops m value)) }
{
    let bits = key.get();
    for i in 0..8u32 {
        let at = 16 * i as usize + nibble(bits, i);
        sums[at] = sums[at].add(value);
    }
}

/// The elements that are one nibble and nothing else.
fn nibble_values() -> ByNibble
    ensures { AreNibbleValues result }
{
    let mut values = [Lane32::ZERO; 128];
    for r in 0..128u32 {
        values[r as usize] = Lane32::new((r % 16) << (4 * (r / 16)));
    }
    values
}

/// The power by 4 of each item.
fn fourth_powers(list: &ByNibble) -> ByNibble
    ensures { (r : ℕ) → r < 128 → slice_index_or result r zero_of ≡ conjugate ops 2 (slice_index_or list.now r zero_of) }
{
    let mut powers = [Lane32::ZERO; 128];
    for r in 0..128 {
        powers[r] = power_2(power_2(list[r]));
    }
    powers
}

/// The power by 8 of each item.
fn eighth_powers(list: &ByNibble) -> ByNibble
    ensures { (r : ℕ) → r < 128 → slice_index_or result r zero_of ≡ conjugate ops 3 (slice_index_or list.now r zero_of) }
{
    let mut powers = [Lane32::ZERO; 128];
    for r in 0..128 {
        powers[r] = power_8(list[r]);
    }
    powers
}

#[cfg(test)]
mod tests {
    use super::add_gathered;
    use crate::Lane32;
    use crate::odd_powers::add_by_products;

    #[test]
    fn each_sum_is_that_of_products(rt: HostRuntime) {
        let mut elements = [Lane32::new(0); 68];
        let mut bits: u32 = 0x8000_0001;
        for element in elements.iter_mut() {
            *element = Lane32::new(bits);
            bits = bits.rotate_left(7) ^ 0x9e37_79b9;
        }
        for count in 0..68 {
            for capacity in 0..9 {
                let mut plainly = [Lane32::new(5); 8];
                let mut gathered = plainly;
                for e in &elements[..count] {
                    add_by_products(&mut plainly[..capacity], *e);
                }
                add_gathered(&mut gathered[..capacity], &elements[..count]);
                assert_eq!(rt; gathered, plainly, "{count} at {capacity}");
            }
        }
    }
}
