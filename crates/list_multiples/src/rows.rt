//! Rows: the multiples of a list by the sixteen values of each four bits of an element.

ghost use Rattle.std.specs.Prelude.{◌≡◌, ℕ, ◌+◌, ◌*◌, ◌<◌, ◌≤◌, ◌^◌, length, map, take, drop, replicate, IfOk};
ghost use Rattle.field_rules.specs.Lists.{sums_of_both};
ghost use Rattle.list_multiples.specs.Rows.{row_of, row_count, factor, IsRow, AreRows};

use base_types::OutOfMemory;
use field_core::Field;
use std::alloc::Global;

/// The rows of `list`, one after the other: that at index `16 w + v` has the multiples by `v * x ^ (4 w)`.
pub fn rows_of<F: Field>(alloc: Global, list: &[F]) -> Result<Vec<F>, OutOfMemory>
    ensures { IfOk result (λ rows. AreRows F.ops F.bits_of (row_count F.BITS) list.now rows.items) }
{
    let count = 128 * ((F::BITS as usize + 31) / 32);
    let mut rows = Vec::with_capacity(alloc, list.len().saturating_mul(count))?;
    for r in 0..count {
        let row = next_row(alloc, rows.as_slice(), list, r)?;
        rows.extend_from_slice(row.as_slice())?;
    }
    Ok(rows)
}

/// The row at index r, by those before it. That of a power of x takes products, and any other is the sum of two.
fn next_row<F: Field>(
    alloc: Global,
    rows: &[F],
    list: &[F],
    r: usize,
) -> Result<Vec<F>, OutOfMemory>
    requires below { r < row_count F.BITS }
    requires before { AreRows F.ops F.bits_of r list.now rows.now }
    ensures { IfOk result (λ row. IsRow F.ops F.bits_of (factor r) list.now row.items) }
{
    let value = r % 16;
    if value == 0 {
        return zeros(alloc, list.len());
    }
    let bit = highest_bit(value);
    let high = power_of_two(bit);
    if value == high {
        products(alloc, list, 4 * (r / 16) + bit)
    } else {
        let n = list.len();
        sums(
            alloc,
            row_at(rows, n, r - value + high),
            row_at(rows, n, r - high),
        )
    }
}

/// The index of the highest bit that is 1.
fn highest_bit(value: usize) -> usize
    requires { (0 < value) × (value < 16) }
    ensures below { result < 4 }
    ensures least { 2 ^ result ≤ value }
    ensures most { value < 2 * 2 ^ result }
{
    if value >= 8 {
        3
    } else if value >= 4 {
        2
    } else if value >= 2 {
        1
    } else {
        0
    }
}

/// `2 ^ bit`.
fn power_of_two(bit: usize) -> usize
    requires { bit < 4 }
    ensures { result ≡ 2 ^ bit }
{
    1 << bit
}

/// n zeros.
fn zeros<F: Field>(alloc: Global, n: usize) -> Result<Vec<F>, OutOfMemory>
    ensures { IfOk result (λ row. row.items ≡ replicate n F.ops.zero) }
{
    Ok(vec![in alloc; F::ZERO; n]?)
}

/// The products of the items and `x ^ j`. Where that is past the bits of an element, as many zeros.
fn products<F: Field>(alloc: Global, list: &[F], j: usize) -> Result<Vec<F>, OutOfMemory>
    ensures { IfOk result (λ row. IsRow F.ops F.bits_of (2 ^ j) list.now row.items) }
{
    let mut row = zeros(alloc, list.len())?;
    if j >= F::BITS as usize {
        return Ok(row);
    }
    F::axpy(row.as_mut_slice(), F::basis(j as u32), list);
    Ok(row)
}

/// The sums of the items at each index.
fn sums<F: Field>(alloc: Global, a: &[F], b: &[F]) -> Result<Vec<F>, OutOfMemory>
    requires { length a.now ≡ length b.now }
    ensures { IfOk result (λ row. row.items ≡ sums_of_both F.ops a.now b.now) }
{
    let mut row = Vec::from_slice(alloc, a)?;
    add_each(row.as_mut_slice(), b);
    Ok(row)
}

/// Adds the item of `x` at each index to the item of `acc` at that index.
pub fn add_each<F: Field>(acc: &mut [F], x: &[F])
    requires { length acc.old ≡ length x.now }
    ensures { acc.new ≡ sums_of_both F.ops acc.old x.now }
{
    for i in 0..acc.len() {
        acc[i] = acc[i].add(x[i]);
    }
}

/// The row at index r of rows of n items each.
fn row_at<F: Field>(rows: &[F], n: usize, r: usize) -> &[F]
    requires { r * n + n ≤ length rows.now }
    ensures { result.now ≡ row_of n rows.now r }
{
    &rows[r * n..r * n + n]
}
