//! Polynomials as lists of coefficients.

ghost use Rattle.std.specs.Prelude.{◌≡◌, ◌≢◌, ℕ, ◌+◌, ◌≤◌, length};
ghost use Rattle.poly_rules.specs.Polynomials.{coefficient, IsSamePolynomial, IsTrimmed, value_at};

use field_core::Field;
use std::marker::Model;

/// A polynomial. A contract sees it as the list of its coefficients, from the constant up, whose last isn't zero.
#[derive(Debug, Drop)]
pub struct Poly<F: Field> {
    coefficients: Vec<F>,
}

impl<F: Field> Model for Poly<F> {
    ghost use Rattle.std.specs.Prelude.{List};
    ghost use Rattle.poly_rules.specs.Polynomials.{IsTrimmed};

    ghost Value = { List F };

    ghost view = { λ p. p.coefficients.items };

    ghost invariant = { λ p. IsTrimmed F.ops p.coefficients.items };
}

impl<F: Field> Poly<F> {
    /// The polynomial of these coefficients, the constant first. Zeros at the end are dropped. Takes no memory.
    pub fn from_coeffs(coeffs: Vec<F>) -> Poly<F>
        ensures same { IsSamePolynomial F.ops result coeffs.items }
        ensures trimmed { IsTrimmed F.ops result }
        ensures no_longer { length result ≤ length coeffs.items }
    {
        let mut coefficients = coeffs;
        let used = used_length(coefficients.as_slice());
        coefficients.truncate(used);
        Poly { coefficients }
    }

    /// The coefficients, the constant first. The last isn't zero.
    pub fn coeffs(&self) -> &[F]
        ensures value { result.now ≡ self.now }
        ensures trimmed { IsTrimmed F.ops result.now }
    {
        self.coefficients.as_slice()
    }

    /// The value at `x`.
    pub fn eval(&self, x: F) -> F
        ensures { result ≡ value_at F.ops self.now x }
    {
        let coefficients = self.coeffs();
        let mut value = F::ZERO;
        for i in (0..coefficients.len()).rev() {
            value = coefficients[i].add(x.mul(value));
        }
        value
    }
}

/// How many coefficients there are up to the last that isn't zero.
fn used_length<F: Field>(coeffs: &[F]) -> usize
    ensures within { result ≤ length coeffs.now }
    ensures zeros { (i : ℕ) → result ≤ i → coefficient F.ops coeffs.now i ≡ F.ops.zero }
    ensures last { (n : ℕ) → result ≡ n + 1 → coefficient F.ops coeffs.now n ≢ F.ops.zero }
{
    let mut used = coeffs.len();
    while used > 0 && coeffs[used - 1] == F::ZERO {
        used -= 1;
    }
    used
}
