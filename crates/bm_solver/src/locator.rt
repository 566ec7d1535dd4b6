//! Linear recurrences and their polynomials.

ghost use Rattle.std.specs.Prelude.{◌≡◌, ◌∷◌, length, reverse, IfOk};
ghost use Rattle.poly_rules.specs.Polynomials.{IsSamePolynomial, IsMonic, degree};

use base_types::OutOfMemory;
use field_core::Field;
use poly_ops::Poly;
use std::alloc::Global;
use std::marker::Model;

/// A linear recurrence of length L: each item is `c_1` times the item before it, and `c_2` times the one before that,
/// and so on to `c_L` times the one L items before. A contract sees it as its coefficients `c_1, .., c_L`.
#[derive(Debug, Drop)]
pub struct Locator<F: Field> {
    poly: Poly<F>,
    monic: Poly<F>,
}

impl<F: Field> Model for Locator<F> {
    ghost use Rattle.std.specs.Prelude.{List};
    ghost use Rattle.bm_solver.specs.Locators.{IsLocator, coefficients_of};

    ghost Value = { List F };

    ghost view = { λ l. coefficients_of l.monic };

    ghost invariant = { λ l. IsLocator F.ops l.poly l.monic };
}

impl<F: Field> Locator<F> {
    /// The recurrence whose monic form has these coefficients: `c_L, .., c_1, 1`. Those of its polynomial are written
    /// into `room`, so that it takes memory only where that is too small.
    pub(crate) fn from_monic(monic: Vec<F>, room: Vec<F>) -> Result<Locator<F>, OutOfMemory>
        requires { IsMonic F.ops (degree monic.items) monic.items }
        ensures { IfOk result (λ locator. monic.items ≡ reverse (F.ops.one ∷ locator)) }
    {
        let mut rising = room;
        rising.clear();
        rising.extend_from_slice(monic.as_slice())?;
        rising.as_mut_slice().reverse();
        Ok(Locator {
            poly: Poly::from_coeffs(rising),
            monic: Poly::from_coeffs(monic),
        })
    }

    /// L. The degree of the polynomial is lower where `c_L` is 0.
    pub fn length(&self) -> usize
        ensures { result ≡ length self.now }
    {
        self.monic.coeffs().len() - 1
    }

    /// `1 + c_1 z + .. + c_L z^L`.
    pub fn poly(&self) -> &Poly<F>
        ensures { IsSamePolynomial F.ops result.now (F.ops.one ∷ self.now) }
    {
        &self.poly
    }

    /// `z^L + c_1 z^(L-1) + .. + c_L`, lent.
    pub fn monic_form(&self) -> &Poly<F>
        ensures value { result.now ≡ reverse (F.ops.one ∷ self.now) }
        ensures monic { IsMonic F.ops (degree result.now) result.now }
        ensures degree { degree result.now ≡ length self.now }
    {
        &self.monic
    }

    /// The same, given away. Takes no memory.
    pub fn into_monic_form(self) -> Poly<F>
        ensures value { result ≡ reverse (F.ops.one ∷ self) }
        ensures monic { IsMonic F.ops (degree result) result }
        ensures degree { degree result ≡ length self }
    {
        self.monic
    }
}

/// `z^L + c_1 z^(L-1) + .. + c_L`, as a polynomial of its own.
pub fn monic<F: Field>(alloc: Global, locator: &Locator<F>) -> Result<Poly<F>, OutOfMemory>
    ensures value { IfOk result (λ f. f ≡ reverse (F.ops.one ∷ locator.now)) }
    ensures monic { IfOk result (λ f. IsMonic F.ops (degree f) f) }
    ensures degree { IfOk result (λ f. degree f ≡ length locator.now) }
{
    let coefficients = Vec::from_slice(alloc, locator.monic_form().coeffs())?;
    Ok(Poly::from_coeffs(coefficients))
}
