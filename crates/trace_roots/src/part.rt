//! Parts of a set, told by their polynomials and the sequences of traces.

ghost use Rattle.std.specs.Prelude.{◌≡◌, ℕ, ◌≤◌, List, IfOk, IfSome, IsSome};
ghost use Rattle.poly_rules.specs.Polynomials.{degree, IsMonic};
ghost use Rattle.sequence_laws.specs.Parts.{IsPart, IsHalf};
ghost use Rattle.trace_roots.specs.Parts.{HasFittingSizes, IsSplit};

use base_types::OutOfMemory;
use field_core::Field;
use poly_ops::{Poly, quotient};
use std::alloc::Global;
use trace_sequences::{Sequence, all_correlations};

/// A set that is still to be taken apart.
#[derive(Drop)]
pub struct Part<F: Field> {
    /// The product of `z + e` over its members.
    pub locator: Poly<F>,
    /// The sequences of the traces of the next exponents.
    pub traces: Vec<Sequence<F>>,
}

/// The part of this polynomial and the other one.
pub fn halves<F: Field>(
    alloc: Global,
    part: &Part<F>,
    half: Poly<F>,
) -> Result<Option<(Part<F>, Part<F>)>, OutOfMemory>
    requires fits { HasFittingSizes part.now.locator part.now.traces.items }
    requires monic { IsMonic F.ops (degree half) half }
    ensures first { IfOk result (λ r. IfSome r (λ p. HasFittingSizes p.0.locator p.0.traces.items)) }
    ensures second { IfOk result (λ r. IfSome r (λ p. HasFittingSizes p.1.locator p.1.traces.items)) }
    ensures found { (first : ℕ) (u : F → F) (es : List F) → IsPart F.ops F.bits_of F.BITS first u es part.now.locator part.now.traces.items
        → IsHalf F.ops F.bits_of F.BITS first es half → IfOk result IsSome }
    ensures parts { (first : ℕ) (u : F → F) (es : List F) → IsPart F.ops F.bits_of F.BITS first u es part.now.locator part.now.traces.items
        → IsHalf F.ops F.bits_of F.BITS first es half
        → IfOk result (λ r. IfSome r (λ p. IsSplit F.ops F.bits_of F.BITS first es p.0.locator p.0.traces.items p.1.locator p.1.traces.items)) }
{
    let n = part.locator.coeffs().len() - 1;
    let size = half.coeffs().len() - 1;
    if size == 0 {
        return Ok(None);
    }
    if n <= size {
        return Ok(None);
    }
    let rest = quotient(alloc, &part.locator, &half)?;
    if rest.coeffs().len() != n - size + 1 {
        return Ok(None);
    }
    let half_traces = all_correlations(alloc, rest.coeffs(), part.traces.as_slice(), size)?;
    let rest_traces = all_correlations(alloc, half.coeffs(), part.traces.as_slice(), n - size)?;
    let first = Part {
        locator: half,
        traces: half_traces,
    };
    let second = Part {
        locator: rest,
        traces: rest_traces,
    };
    Ok(Some((first, second)))
}
