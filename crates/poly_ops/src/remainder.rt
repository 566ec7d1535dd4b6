//! Division by a monic polynomial: remainders and quotients.

ghost use Rattle.std.specs.Prelude.{◌≡◌, List, ◌≤◌, length, take, drop, IfOk};
ghost use Rattle.poly_rules.specs.Polynomials.{degree, IsMonic, IsTrimmed, IsSamePolynomial, sum_of, product_of};
ghost use Rattle.poly_rules.specs.Remainders.{IsRemainder};
ghost use Rattle.poly_laws.specs.Rests.{IsQuotient};
ghost use Rattle.poly_laws.specs.Squares.{with_zeros};

use crate::Poly;
use crate::divisor::Divisor;
use base_types::OutOfMemory;
use field_core::Field;
use std::alloc::Global;

/// The remainder of `a` by `f`, which is monic of degree at least 1.
pub fn rem_monic<F: Field>(alloc: Global, a: &Poly<F>, f: &Poly<F>) -> Result<Poly<F>, OutOfMemory>
    requires monic { IsMonic F.ops (degree f.now) f.now }
    requires degree { 1 ≤ degree f.now }
    ensures { IfOk result (λ r. IsRemainder F.ops a.now f.now r) }
{
    let coefficients = Vec::from_slice(alloc, a.coeffs())?;
    Ok(reduced(coefficients, &Divisor::of(f.coeffs())))
}

/// The quotient of `a` by `f`, which is monic of degree at least 1: of a product by one factor it is the other.
pub fn quotient<F: Field>(alloc: Global, a: &Poly<F>, f: &Poly<F>) -> Result<Poly<F>, OutOfMemory>
    requires monic { IsMonic F.ops (degree f.now) f.now }
    requires degree { 1 ≤ degree f.now }
    ensures divides { IfOk result (λ q. IsQuotient F.ops a.now f.now q) }
    ensures exact { (g : List F) → IsMonic F.ops (degree g) g → IsSamePolynomial F.ops a.now (product_of F.ops g f.now) → IfOk result (λ q. q ≡ g) }
{
    let mut rest = Vec::from_slice(alloc, a.coeffs())?;
    let divisor = Divisor::of(f.coeffs());
    divide(rest.as_mut_slice(), &divisor);
    let from = divisor.degree().min(rest.len());
    let coefficients = Vec::from_slice(alloc, &rest.as_slice()[from..])?;
    Ok(Poly::from_coeffs(coefficients))
}

/// The remainder of the square of `a` by `f`, which is monic of degree at least 1.
pub fn square_mod<F: Field>(alloc: Global, a: &Poly<F>, f: &Poly<F>) -> Result<Poly<F>, OutOfMemory>
    requires monic { IsMonic F.ops (degree f.now) f.now }
    requires degree { 1 ≤ degree f.now }
    ensures { IfOk result (λ r. IsRemainder F.ops (product_of F.ops a.now a.now) f.now r) }
{
    square_by(alloc, a, &Divisor::of(f.coeffs()))
}

/// The remainder of the square of `a`.
pub fn square_by<F: Field>(
    alloc: Global,
    a: &Poly<F>,
    f: &Divisor<F>,
) -> Result<Poly<F>, OutOfMemory>
    ensures { IfOk result (λ r. IsRemainder F.ops (product_of F.ops a.now a.now) f.now r) }
{
    let mut squares = Vec::from_slice(alloc, a.coeffs())?;
    F::square_each(squares.as_mut_slice());
    Ok(reduced(with_zeros_between(alloc, squares.as_slice())?, f))
}

/// The remainder of the polynomial of these coefficients.
fn reduced<F: Field>(coeffs: Vec<F>, f: &Divisor<F>) -> Poly<F>
    ensures { IsRemainder F.ops coeffs.items f.now result }
{
    let mut rest = coeffs;
    divide(rest.as_mut_slice(), f);
    rest.truncate(f.degree());
    Poly::from_coeffs(rest)
}

/// Long division: leaves the quotient in the coefficients from the degree on, and the remainder in those below.
fn divide<F: Field>(rest: &mut [F], f: &Divisor<F>)
    ensures { IsSamePolynomial F.ops rest.old
        (sum_of F.ops (product_of F.ops (drop (degree f.now) rest.new) f.now) (take (degree f.now) rest.new)) }
{
    let n = f.degree();
    for top in (n..rest.len()).rev() {
        let k = rest[top];
        f.add_lower(&mut rest[top - n..top], k);
    }
}

/// The items, each with a zero behind it.
fn with_zeros_between<F: Field>(alloc: Global, items: &[F]) -> Result<Vec<F>, OutOfMemory>
    ensures { IfOk result (λ v. v.items ≡ with_zeros F.ops.zero items.now) }
{
    let mut spaced = Vec::with_capacity(alloc, items.len().saturating_mul(2))?;
    for a in items {
        spaced.push(*a)?;
        spaced.push(F::ZERO)?;
    }
    Ok(spaced)
}
