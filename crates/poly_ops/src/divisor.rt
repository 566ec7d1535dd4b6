//! Monic polynomials that others are divided by.

ghost use Rattle.std.specs.Prelude.{◌≡◌, ◌+◌, ◌-◌, ◌≤◌, length, take, IfOk};
ghost use Rattle.field_rules.specs.Fields.{with_multiple};
ghost use Rattle.poly_rules.specs.Polynomials.{degree, IsMonic};

use base_types::OutOfMemory;
use field_core::Field;
use list_multiples::ListMultiples;
use std::alloc::Global;
use std::marker::Model;

/// From what degree on the multiples of a polynomial are worth making for the remainders of a table.
const MULTIPLES_PAY_FROM: usize = 16;

/// A monic polynomial of degree at least 1, which may be kept with the multiples of its lower coefficients. A contract
/// sees it as the list of its coefficients.
#[derive(Drop)]
pub struct Divisor<'a, F: Field> {
    coefficients: &'a [F],
    multiples: Option<ListMultiples<F>>,
}

impl<'a, F: Field> Model for Divisor<'a, F> {
    ghost use Rattle.std.specs.Prelude.{◌≡◌, ◌≤◌, List, take, IfSome};
    ghost use Rattle.poly_rules.specs.Polynomials.{degree, IsMonic};

    ghost Value = { List F };

    ghost view = { λ d. d.coefficients.now };

    ghost invariant = { λ d. IsMonic F.ops (degree d.coefficients.now) d.coefficients.now × (1 ≤ degree d.coefficients.now)
        × IfSome d.multiples (λ m. m ≡ take (degree d.coefficients.now) d.coefficients.now) };
}

impl<'a, F: Field> Divisor<'a, F> {
    /// For one division.
    pub fn of(f: &'a [F]) -> Divisor<'a, F>
        requires monic { IsMonic F.ops (degree f.now) f.now }
        requires degree { 1 ≤ degree f.now }
        ensures { result ≡ f.now }
    {
        Divisor {
            coefficients: f,
            multiples: None,
        }
    }

    /// For many divisions.
    pub fn for_many(alloc: Global, f: &'a [F]) -> Result<Divisor<'a, F>, OutOfMemory>
        requires monic { IsMonic F.ops (degree f.now) f.now }
        requires degree { 1 ≤ degree f.now }
        ensures { IfOk result (λ d. d ≡ f.now) }
    {
        let n = f.len() - 1;
        if n < MULTIPLES_PAY_FROM {
            return Ok(Divisor::of(f));
        }
        let multiples = ListMultiples::of(alloc, &f[..n])?;
        Ok(Divisor {
            coefficients: f,
            multiples: Some(multiples),
        })
    }

    /// The degree.
    pub fn degree(&self) -> usize
        ensures value { result ≡ degree self.now }
        ensures monic { IsMonic F.ops (degree self.now) self.now }
        ensures some { 1 ≤ degree self.now }
    {
        self.coefficients.len() - 1
    }

    /// Adds `k` times the coefficients below the highest.
    pub fn add_lower(&self, acc: &mut [F], k: F)
        requires { length acc.old ≡ degree self.now }
        ensures { acc.new ≡ with_multiple F.ops acc.old k (take (degree self.now) self.now) }
    {
        match &self.multiples {
            Some(multiples) => multiples.add_multiple(acc, k),
            None => {
                let n = self.coefficients.len() - 1;
                F::axpy(acc, k, &self.coefficients[..n])
            }
        }
    }
}
