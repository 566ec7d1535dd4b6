//! Linear recurrences.

ghost use Rattle.std.specs.Prelude.{◌≡◌, ◌≤◌, length, IfOk};
ghost use Rattle.poly_rules.specs.Polynomials.{degree, IsMonic};
ghost use Rattle.poly_rules.specs.Recurrences.{IsExtension};

use crate::Poly;
use base_types::OutOfMemory;
use field_core::Field;
use std::alloc::Global;

/// `n` values that begin with `sums`, each later one by the recurrence of `f`: with L the degree of `f`,
/// `s_(k+L) = f_0 * s_k + .. + f_(L-1) * s_(k+L-1)`.
pub fn extend_recurrence<F: Field>(
    alloc: Global,
    f: &Poly<F>,
    sums: &[F],
    n: usize,
) -> Result<Vec<F>, OutOfMemory>
    requires monic { IsMonic F.ops (degree f.now) f.now }
    requires degree { 1 ≤ degree f.now }
    requires enough { degree f.now ≤ length sums.now }
    requires longer { length sums.now ≤ n }
    ensures { IfOk result (λ s. IsExtension F.ops f.now sums.now n s.items) }
{
    let degree = f.coeffs().len() - 1;
    let lower = &f.coeffs()[..degree];
    let mut values = Vec::with_capacity(alloc, n)?;
    values.extend_from_slice(sums)?;
    for i in sums.len()..n {
        let next = F::dot(lower, &values[i - degree..]);
        values.push(next)?;
    }
    Ok(values)
}
