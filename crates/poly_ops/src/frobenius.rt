//! The powers `x ^ (2 ^ j)` modulo a polynomial.

ghost use Rattle.std.specs.Prelude.{◌≡◌, ◌≤◌, IfOk};
ghost use Rattle.poly_rules.specs.Polynomials.{degree, IsMonic, IsSamePolynomial, monomial};
ghost use Rattle.poly_rules.specs.Remainders.{IsFrobeniusTable};

use crate::divisor::Divisor;
use crate::remainder::square_by;
use crate::{Poly, rem_monic};
use base_types::OutOfMemory;
use field_core::Field;
use std::alloc::Global;

/// The remainders of `x ^ (2 ^ j)` by `f` for j from 0 to `BITS`. `f` is monic of degree at least 1.
pub fn frobenius_table<F: Field>(alloc: Global, f: &Poly<F>) -> Result<Vec<Poly<F>>, OutOfMemory>
    requires monic { IsMonic F.ops (degree f.now) f.now }
    requires degree { 1 ≤ degree f.now }
    ensures { IfOk result (λ table. IsFrobeniusTable F.ops f.now F.BITS table.items) }
{
    let mut table = Vec::with_capacity(alloc, F::BITS as usize + 1)?;
    let divisor = Divisor::for_many(alloc, f.coeffs())?;
    let mut power = rem_monic(alloc, &variable(alloc)?, f)?;
    for _ in 0..F::BITS {
        let square = square_by(alloc, &power, &divisor)?;
        table.push(power)?;
        power = square;
    }
    table.push(power)?;
    Ok(table)
}

/// The polynomial x.
fn variable<F: Field>(alloc: Global) -> Result<Poly<F>, OutOfMemory>
    ensures { IfOk result (λ x. IsSamePolynomial F.ops x (monomial F.ops 1)) }
{
    let mut coefficients = Vec::with_capacity(alloc, 2)?;
    coefficients.push(F::ZERO)?;
    coefficients.push(F::ONE)?;
    Ok(Poly::from_coeffs(coefficients))
}
