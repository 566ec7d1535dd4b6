//! The sequence of the square of a function, from that of the function.

ghost use Rattle.std.specs.Prelude.{◌≡◌, ℕ, ◌+◌, ◌-◌, ◌/◌, ◌≤◌, List, length, IfOk};
ghost use Rattle.sequence_laws.specs.Halves.{evens, odds};
ghost use Rattle.sequence_laws.specs.Sequences.{squares_of, IsSquareSequence};
ghost use Rattle.trace_sequences.specs.Woven.{AreWoven};

use crate::taps::Taps;
use base_types::OutOfMemory;
use field_core::Field;
use std::alloc::Global;

/// The coefficients of a polynomial at even indices, and those at odd ones.
#[derive(Drop)]
pub struct Halves<F: Field> {
    pub even: Vec<F>,
    pub odd: Vec<F>,
}

/// The halves of a polynomial.
pub fn halves_of<F: Field>(alloc: Global, f: &[F]) -> Result<Halves<F>, OutOfMemory>
    ensures even { IfOk result (λ h. h.even.items ≡ evens f.now) }
    ensures odd { IfOk result (λ h. h.odd.items ≡ odds f.now) }
{
    let mut even = Vec::with_capacity(alloc, f.len() / 2 + 1)?;
    let mut odd = Vec::with_capacity(alloc, f.len() / 2)?;
    for i in 0..f.len() / 2 {
        even.push(f[2 * i])?;
        odd.push(f[2 * i + 1])?;
    }
    if f.len() % 2 == 1 {
        even.push(f[f.len() - 1])?;
    }
    Ok(Halves { even, odd })
}

/// The correlations of the odd half with the squares of `s` at even indices, and those of the even half at odd ones.
pub fn square_sequence<F: Field>(
    alloc: Global,
    even: &Taps<F>,
    odd: &Taps<F>,
    s: &[F],
) -> Result<Vec<F>, OutOfMemory>
    requires odd { length s.now - length s.now / 2 + length odd.now ≤ length s.now + 1 }
    requires even { length s.now / 2 + length even.now ≤ length s.now + 1 }
    ensures size { IfOk result (λ t. length t.items ≡ length s.now) }
    ensures square { (f : List F) → even.now ≡ evens f → odd.now ≡ odds f → IfOk result (λ t. IsSquareSequence F.ops f s.now t.items) }
{
    let n = s.len();
    let squares = squared(alloc, s)?;
    let at_even = odd.correlation(alloc, squares.as_slice(), n - n / 2)?;
    let at_odd = even.correlation(alloc, squares.as_slice(), n / 2)?;
    woven(alloc, at_even.as_slice(), at_odd.as_slice())
}

/// The square of each item.
fn squared<F: Field>(alloc: Global, s: &[F]) -> Result<Vec<F>, OutOfMemory>
    ensures { IfOk result (λ v. v.items ≡ squares_of F.ops s.now) }
{
    let mut squares = Vec::from_slice(alloc, s)?;
    F::square_each(squares.as_mut_slice());
    Ok(squares)
}

/// The items of two lists in turn.
fn woven<F: Field>(alloc: Global, first: &[F], second: &[F]) -> Result<Vec<F>, OutOfMemory>
    requires fewer { length second.now ≤ length first.now }
    requires by_one { length first.now ≤ length second.now + 1 }
    ensures { IfOk result (λ t. AreWoven F.ops first.now second.now t.items) }
{
    let mut both = Vec::with_capacity(alloc, first.len())?;
    for i in 0..second.len() {
        both.push(first[i])?;
        both.push(second[i])?;
    }
    if second.len() < first.len() {
        both.push(first[second.len()])?;
    }
    Ok(both)
}
