//! The rows of a set: the sequences of `x, x^2, x^4, ..` on it.

ghost use Rattle.std.specs.Prelude.{◌≡◌, ℕ, ◌+◌, ◌-◌, ◌/◌, ◌^◌, ◌<◌, ◌≤◌, List, ◌++◌, length, replicate, take, IfOk, IfSome, IsSome};
ghost use Rattle.std.specs.List.{All};
ghost use Rattle.field_rules.specs.Lists.{AreDistinct};
ghost use Rattle.poly_rules.specs.Polynomials.{degree};
ghost use Rattle.poly_rules.specs.Roots.{with_roots};
ghost use Rattle.sequence_laws.specs.Halves.{evens, odds};
ghost use Rattle.sequence_laws.specs.Sequences.{IsUnit, row_of, sequence_of};
ghost use Rattle.trace_sequences.specs.Rows.{AreRows};

use crate::Sequence;
use crate::lists::zeros;
use crate::squares::{halves_of, square_sequence};
use crate::taps::Taps;
use base_types::OutOfMemory;
use field_core::Field;
use poly_ops::Poly;
use std::alloc::Global;

/// The rows of `x, x^2, x^4, ..` up to `x^(2^BITS)`, where `f` is the polynomial of the set.
pub fn rows_of<F: Field>(alloc: Global, f: &Poly<F>) -> Result<Vec<Sequence<F>>, OutOfMemory>
    requires degree { 2 ≤ degree f.now }
    ensures count { IfOk result (λ rows. length rows.items ≡ F.BITS + 1) }
    ensures size { IfOk result (λ rows. All (λ r. length r ≡ degree f.now) rows.items) }
    ensures rows { (es : List F) (u : F → F) → AreDistinct es → f.now ≡ with_roots F.ops es → IsUnit F.ops u es
        → IfOk result (λ rows. AreRows F.ops u es rows.items) }
{
    let n = f.coeffs().len() - 1;
    let sums = unit_sums(alloc, f.coeffs(), n / 4 + 2)?;
    let halves = halves_of(alloc, f.coeffs())?;
    let even = Taps::for_many(alloc, halves.even.as_slice(), n / 2)?;
    let odd = Taps::for_many(alloc, halves.odd.as_slice(), n - n / 2)?;
    rows_by_halves(alloc, &even, &odd, sums.as_slice(), n)
}

/// The rows, one after another.
fn rows_by_halves<F: Field>(
    alloc: Global,
    even: &Taps<F>,
    odd: &Taps<F>,
    sums: &[F],
    n: usize,
) -> Result<Vec<Sequence<F>>, OutOfMemory>
    requires sums { (2 ≤ length sums.now) × (length sums.now ≤ n) }
    requires odd { length odd.now ≡ (n + 1) / 2 }
    requires even { length even.now ≡ n / 2 + 1 }
    ensures count { IfOk result (λ rows. length rows.items ≡ F.BITS + 1) }
    ensures size { IfOk result (λ rows. All (λ r. length r ≡ n) rows.items) }
    ensures rows { (es f : List F) (u : F → F) → AreDistinct es → f ≡ with_roots F.ops es → IsUnit F.ops u es → length es ≡ n
        → even.now ≡ evens f → odd.now ≡ odds f → sums.now ≡ sequence_of F.ops u es (length es - 1) (length sums.now)
        → IfOk result (λ rows. AreRows F.ops u es rows.items) }
{
    let count = F::BITS as usize + 1;
    let mut rows = Vec::with_capacity(alloc, count)?;
    for _ in 0..count {
        let row = next_row(alloc, even, odd, sums, n, rows.as_slice())?;
        rows.push(Sequence::new(row))?;
    }
    Ok(rows)
}

/// The first sums of the unit that aren't zeros: 1, and then by the recurrence of `f`.
fn unit_sums<F: Field>(alloc: Global, f: &[F], count: usize) -> Result<Vec<F>, OutOfMemory>
    requires some { 1 ≤ count }
    requires within { count ≤ degree f.now }
    ensures size { IfOk result (λ sums. length sums.items ≡ count) }
    ensures sums { (es : List F) (u : F → F) → f.now ≡ with_roots F.ops es → IsUnit F.ops u es
        → IfOk result (λ sums. sums.items ≡ sequence_of F.ops u es (length es - 1) count) }
{
    let n = f.len() - 1;
    let mut sums = Vec::with_capacity(alloc, count)?;
    sums.push(F::ONE)?;
    for i in 1..count {
        let next = F::dot(&f[n - i..n], sums.as_slice());
        sums.push(next)?;
    }
    Ok(sums)
}

/// The next row. The first stand in the sums of the unit, each further one is made of the one before.
fn next_row<F: Field>(
    alloc: Global,
    even: &Taps<F>,
    odd: &Taps<F>,
    sums: &[F],
    n: usize,
    rows: &[Sequence<F>],
) -> Result<Vec<F>, OutOfMemory>
    requires sums { (2 ≤ length sums.now) × (length sums.now ≤ n) }
    requires sizes { All (λ r. length r ≡ n) rows.now }
    requires odd { length odd.now ≡ (n + 1) / 2 }
    requires even { length even.now ≡ n / 2 + 1 }
    ensures size { IfOk result (λ row. length row.items ≡ n) }
    ensures row { (es f : List F) (u : F → F) → AreDistinct es → f ≡ with_roots F.ops es → IsUnit F.ops u es → length es ≡ n
        → even.now ≡ evens f → odd.now ≡ odds f → sums.now ≡ sequence_of F.ops u es (length es - 1) (length sums.now) → AreRows F.ops u es rows.now
        → IfOk result (λ row. row.items ≡ row_of F.ops u es (length rows.now)) }
{
    match power_below(rows.len(), sums.len()) {
        Some(power) => row_in_sums(alloc, sums, n, power),
        None => square_sequence(alloc, even, odd, rows[rows.len() - 1].as_slice()),
    }
}

/// `2 ^ j`, where it is below the limit.
fn power_below(j: usize, limit: usize) -> Option<usize>
    requires { 2 ≤ limit }
    ensures power { IfSome result (λ p. (p ≡ 2 ^ j) × (p < limit)) }
    ensures first { j ≡ 0 → IsSome result }
{
    if j >= 16 {
        return None;
    }
    let power = 1 << j;
    if power < limit { Some(power) } else { None }
}

/// The row whose function is x to the power: zeros, and the first sums.
fn row_in_sums<F: Field>(
    alloc: Global,
    sums: &[F],
    n: usize,
    power: usize,
) -> Result<Vec<F>, OutOfMemory>
    requires power { power < length sums.now }
    requires fewer { length sums.now ≤ n }
    ensures { IfOk result (λ row. row.items ≡ replicate (n - 1 - power) F.ops.zero ++ take (power + 1) sums.now) }
{
    let mut row = zeros(alloc, n - 1 - power)?;
    row.extend_from_slice(&sums[..power + 1])?;
    Ok(row)
}
