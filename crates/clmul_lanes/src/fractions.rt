//! The sums of the odd powers of many elements, by the way that pays, and as the terms of fractions: 32 elements share one.

ghost use Rattle.std.specs.Prelude.{◌≡◌, ℕ, suc, ◌+◌, ◌*◌, ◌<◌, ◌≤◌, List, [], ◌∷◌, length, slice_index, slice_index_or};
ghost use Rattle.field_rules.specs.Fields.{with_multiple};
ghost use Rattle.field_rules.specs.Lists.{sums_of_both};
ghost use Rattle.sketch_rules.specs.PowerSums.{odd_power_sums};
ghost use Rattle.clmul_lanes.specs.Lane32.{ops, bits_of, zero_of, one_of};
ghost use Rattle.clmul_lanes.specs.Rows.{AreRows};
ghost use Rattle.clmul_lanes.specs.Fractions.{IsLocator, IsNumerator, IsLaterDenominator};

use crate::Lane32;
use crate::gathered_sums::add_gathered;
use crate::rows::{Row, Rows, fill_rows, product_at};
use crate::small_sums::{add_each, add_four_at_a_time};
use field_core::Field;

/// How many elements share a fraction.
const SHARED: usize = 32;

/// From how many elements on a fraction of their own is worth making.
const FRACTIONS_PAY_FROM: usize = 16;

/// From how many items on fractions are worth making.
const LISTS_PAY_FROM: usize = 24;

/// From how many items on gathering pays, and up to how many there is a way to gather.
const LEAST_GATHERED: usize = 5;

const MOST_GATHERED: usize = 8;

/// From how many elements on gathering pays.
const GATHERING_PAYS_FROM: usize = 512;

/// The coefficients of a product of factors `1 + e z`, but for the constant one, which is 1.
type Locator = [Lane32; 32];

/// The coefficients of a numerator, the constant one's first.
type Numerator = [Lane32; 33];

/// Adds to the item at each index i the sum of the `(2i + 1)`-th powers of the elements.
pub fn add_power_sums(acc: &mut [Lane32], elements: &[Lane32])
    ensures { acc.new ≡ sums_of_both ops acc.old (odd_power_sums ops elements.now 0 (length acc.old)) }
{
    if acc.len() >= LEAST_GATHERED
        && acc.len() <= MOST_GATHERED
        && elements.len() >= GATHERING_PAYS_FROM
    {
        add_gathered(acc, elements)
    } else if acc.len() < LISTS_PAY_FROM {
        add_four_at_a_time(acc, elements)
    } else {
        add_by_fractions(acc, elements)
    }
}

/// A fraction for each 32 elements, and one for the rest where they are many.
fn add_by_fractions(acc: &mut [Lane32], elements: &[Lane32])
    ensures { acc.new ≡ sums_of_both ops acc.old (odd_power_sums ops elements.now 0 (length acc.old)) }
{
    let mut rows = [0; 4096];
    let blocks = elements.len() / SHARED;
    for n in 0..blocks {
        add_fraction(acc, &elements[SHARED * n..SHARED * n + SHARED], &mut rows);
    }
    let rest = &elements[SHARED * blocks..];
    if rest.len() < FRACTIONS_PAY_FROM {
        add_each(acc, rest)
    } else {
        add_fraction(acc, rest, &mut rows)
    }
}

/// The terms of the fraction of up to 32 elements. The rows may hold anything before.
fn add_fraction(acc: &mut [Lane32], elements: &[Lane32], rows: &mut Rows)
    requires { length elements.now ≤ 32 }
    ensures { acc.new ≡ sums_of_both ops acc.old (odd_power_sums ops elements.now 0 (length acc.old)) }
{
    let locator = locator_of(elements);
    fill_rows(rows, &squares_of(&locator));
    add_terms(acc, &product_of_halves(&locator), rows)
}

/// The product of the factors `1 + e z` of the elements.
fn locator_of(elements: &[Lane32]) -> Locator
    requires { length elements.now ≤ 32 }
    ensures { IsLocator elements.now result }
{
    let mut locator = [Lane32::ZERO; 32];
    for n in 0..elements.len() {
        let up = moved_up(&locator);
        let parts = &up[..];
        add_multiple(
            &mut locator,
            elements[elements.len() - 1 - n],
            &parts[..n + 1],
        );
    }
    locator
}

/// Adds a multiple of a list to as many items as it has.
fn add_multiple(acc: &mut [Lane32], k: Lane32, x: &[Lane32])
    requires { length x.now ≤ length acc.old }
    ensures { acc.new ≡ with_multiple ops acc.old k x.now }
{
    Lane32::axpy(&mut acc[..x.len()], k, x);
}

/// Each coefficient, from the constant one on, one place further up, where the last one is left out.
fn moved_up(locator: &Locator) -> Locator
    ensures first { slice_index_or result 0 zero_of ≡ one_of }
    ensures later { (j : ℕ) → j < 31 → slice_index_or result (suc j) zero_of ≡ slice_index_or locator.now j zero_of }
    ensures size { length result ≡ 32 }
{
    let mut moved = [Lane32::ONE; 32];
    for j in 0..31 {
        moved[j + 1] = locator[j];
    }
    moved
}

/// The bits of the squares of the coefficients, which are the denominator's from the second one on.
fn squares_of(locator: &Locator) -> Row
    ensures { (es : List Lane32) → IsLocator es locator.now → IsLaterDenominator es result }
{
    let mut squares = [0; 32];
    for j in 0..32 {
        squares[j] = locator[j].square().get();
    }
    squares
}

/// The product of the polynomials of the coefficients at even and at odd places, which is the numerator.
fn product_of_halves(locator: &Locator) -> Numerator
    ensures { (es : List Lane32) → length es ≤ 32 → IsLocator es locator.now → IsNumerator 0 es result }
{
    let odd = odd_half(locator);
    let mut product = [Lane32::ZERO; 33];
    for i in 0..16 {
        product[i] = odd[i];
    }
    for i in 0..16 {
        let list = &mut product[..];
        Lane32::axpy(&mut list[i + 1..i + 17], locator[2 * i + 1], &odd);
    }
    product
}

/// The coefficients at odd places.
fn odd_half(locator: &Locator) -> [Lane32; 16]
    ensures each { (i : ℕ) → i < 16 → slice_index_or result i zero_of ≡ slice_index_or locator.now (2 * i) zero_of }
    ensures size { length result ≡ 16 }
{
    let mut odd = [Lane32::ZERO; 16];
    for i in 0..16 {
        odd[i] = locator[2 * i];
    }
    odd
}

/// Adds the terms of a fraction, where the rows are those of its denominator from the second coefficient on.
fn add_terms(acc: &mut [Lane32], first: &Numerator, rows: &Rows)
    ensures { (es : List Lane32) (list : List ℕ) → length es ≤ 32 → IsNumerator 0 es first.now → IsLaterDenominator es list → AreRows list rows.now
        → acc.new ≡ sums_of_both ops acc.old (odd_power_sums ops es 0 (length acc.old)) }
{
    let mut numerator = *first;
    for i in 0..acc.len() {
        acc[i] = acc[i].add(numerator[0]);
        numerator = next_numerator(&numerator, rows);
    }
}

/// The numerator of what is left of a fraction when its first term is taken away and the rest is divided by y.
#[inline(always)]
fn next_numerator(numerator: &Numerator, rows: &Rows) -> Numerator
    ensures later { (list : List ℕ) → AreRows list rows.now → (j : ℕ) → j < 32 → (d : Lane32) → bits_of d ≡ slice_index list j
        → slice_index_or result j zero_of ≡ ops.plus (slice_index_or numerator.now (suc j) zero_of) (ops.times (slice_index_or numerator.now 0 zero_of) d) }
    ensures last { slice_index_or result 32 zero_of ≡ zero_of }
{
    let k = numerator[0].get();
    let mut next = [Lane32::ZERO; 33];
    for j in 0..32 {
        next[j] = numerator[j + 1].add(Lane32::new(product_at(rows, k, j)));
    }
    next
}

#[cfg(test)]
mod tests {
    use super::add_by_fractions;
    use crate::Lane32;
    use crate::odd_powers::add_by_products;
    use crate::small_sums::add_four_at_a_time;
    use field_core::Field;
    use std::process::Abort;

    /// Through the bound, as sketches call it.
    fn add_all<F: Field>(acc: &mut [F], elements: &[F]) {
        F::power_sums_into(acc, elements)
    }

    fn compare(rt: &impl Abort, capacity: usize, elements: &[Lane32])
        requires { capacity ≤ 130 }
    {
        let mut plainly = [Lane32::new(5); 130];
        let mut by_fours = plainly;
        let mut by_fractions = plainly;
        let mut through_the_bound = plainly;
        for e in elements {
            add_by_products(&mut plainly[..capacity], *e);
        }
        add_four_at_a_time(&mut by_fours[..capacity], elements);
        add_by_fractions(&mut by_fractions[..capacity], elements);
        add_all(&mut through_the_bound[..capacity], elements);
        let count = elements.len();
        assert_eq!(rt; by_fours, plainly, "{count} at {capacity}");
        assert_eq!(rt; by_fractions, plainly, "{count} at {capacity}");
        assert_eq!(rt; through_the_bound, plainly, "{count} at {capacity}");
    }

    #[test]
    fn each_way_adds_the_same_sums(rt: HostRuntime) {
        let mut elements = [Lane32::new(0); 68];
        let mut bits: u32 = 0x8000_0001;
        for element in elements.iter_mut() {
            *element = Lane32::new(bits);
            bits = bits.rotate_left(7) ^ 0x9e37_79b9;
        }
        for count in 0..68 {
            for capacity in 0..68 {
                compare(&rt, capacity, &elements[..count]);
            }
            compare(&rt, 96, &elements[..count]);
            compare(&rt, 130, &elements[..count]);
        }
    }
}
