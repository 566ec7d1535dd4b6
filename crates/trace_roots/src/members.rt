//! The members of a set, found by taking it apart.

ghost use Rattle.std.specs.Prelude.{◌≡◌, ℕ, ◌+◌, ◌<◌, ◌≤◌, List, ◌++◌, length, IfOk, IfSome, IsSome, IsTrue, OnOk};
ghost use Rattle.std.specs.List.Sorted.{IsPermutation};
ghost use Rattle.std.specs.List.{All};
ghost use Rattle.field_rules.specs.Lists.{AreDistinct};
ghost use Rattle.poly_rules.specs.Polynomials.{degree};
ghost use Rattle.poly_rules.specs.Roots.{with_roots};
ghost use Rattle.splitting_laws.specs.Alike.{IsAlike};
ghost use Rattle.sequence_laws.specs.Sequences.{IsUnit};
ghost use Rattle.sequence_laws.specs.Parts.{IsTraceSequence, IsPart};
ghost use Rattle.trace_sequences.specs.Rows.{AreTraceSequences};
ghost use Rattle.trace_roots.specs.Parts.{HasFittingSizes};

use crate::half::half_of;
use crate::pair::two_members;
use crate::part::{Part, halves};
use base_types::OutOfMemory;
use field_core::Field;
use poly_ops::Poly;
use std::alloc::Global;
use trace_sequences::{Sequence, traces_from};

/// Appends the members of the set, told apart by the traces at this exponent and those above it, and answers whether
/// they were all found. Where the part isn't a set's, what is appended has no meaning.
pub fn find_members<F: Field>(
    alloc: Global,
    part: Part<F>,
    exponent: u32,
    found: &mut Vec<F>,
) -> Result<bool, OutOfMemory>
    requires fits { HasFittingSizes part.locator part.traces.items }
    requires exponent { exponent ≤ F.BITS }
    ensures all { (u : F → F) (es : List F) → IsPart F.ops F.bits_of F.BITS exponent u es part.locator part.traces.items → IsAlike F.ops F.bits_of F.BITS exponent es
        → IfOk result (λ all. IsTrue all) }
    ensures members { (u : F → F) (es : List F) → IsPart F.ops F.bits_of F.BITS exponent u es part.locator part.traces.items → IsAlike F.ops F.bits_of F.BITS exponent es
        → OnOk result ((members : List F) × IsPermutation es members × (found.new.items ≡ found.old.items ++ members)) }
{
    if part.locator.coeffs().len() == 2 {
        found.push(part.locator.coeffs()[0])?;
        return Ok(true);
    }
    if part.locator.coeffs().len() == 3 {
        let Some(pair) = two_members(&part.locator) else {
            return Ok(false);
        };
        found.extend_from_slice(&pair)?;
        return Ok(true);
    }
    if exponent >= F::BITS {
        return Ok(false);
    }
    let Some((trace, part)) = with_trace(alloc, part, exponent)? else {
        return Ok(false);
    };
    let Some(half) = half_of(alloc, trace.as_slice())? else {
        return find_members(alloc, part, exponent + 1, found);
    };
    let Some((first, second)) = halves(alloc, &part, half)? else {
        return Ok(false);
    };
    if !find_members(alloc, first, exponent + 1, found)? {
        return Ok(false);
    }
    find_members(alloc, second, exponent + 1, found)
}

/// The sequence of the trace of the exponent, taken from the part, which is given more where it has none left.
fn with_trace<F: Field>(
    alloc: Global,
    part: Part<F>,
    exponent: u32,
) -> Result<Option<(Sequence<F>, Part<F>)>, OutOfMemory>
    requires fits { HasFittingSizes part.locator part.traces.items }
    requires degree { 2 ≤ degree part.locator }
    requires exponent { exponent < F.BITS }
    ensures size { IfOk result (λ r. IfSome r (λ p. length p.0 ≡ degree p.1.locator)) }
    ensures fits { IfOk result (λ r. IfSome r (λ p. HasFittingSizes p.1.locator p.1.traces.items)) }
    ensures found { (u : F → F) (es : List F) → IsPart F.ops F.bits_of F.BITS exponent u es part.locator part.traces.items → IfOk result IsSome }
    ensures trace { (u : F → F) (es : List F) → IsPart F.ops F.bits_of F.BITS exponent u es part.locator part.traces.items
        → IfOk result (λ r. IfSome r (λ p. IsTraceSequence F.ops F.bits_of F.BITS exponent u es p.0)) }
    ensures part { (u : F → F) (es : List F) → IsPart F.ops F.bits_of F.BITS exponent u es part.locator part.traces.items
        → IfOk result (λ r. IfSome r (λ p. IsPart F.ops F.bits_of F.BITS (exponent + 1) u es p.1.locator p.1.traces.items)) }
{
    let Part { locator, traces } = part;
    let Some(mut traces) = more_traces(alloc, traces, &locator, exponent)? else {
        return Ok(None);
    };
    let trace = traces.remove(0);
    Ok(Some((trace, Part { locator, traces })))
}

/// The sequences of the traces from the exponent on: those that are left or, where none are, the next ones.
fn more_traces<F: Field>(
    alloc: Global,
    left: Vec<Sequence<F>>,
    f: &Poly<F>,
    exponent: u32,
) -> Result<Option<Vec<Sequence<F>>>, OutOfMemory>
    requires degree { 2 ≤ degree f.now }
    requires sizes { All (λ t. length t ≡ degree f.now) left.items }
    requires exponent { exponent < F.BITS }
    ensures sizes { IfOk result (λ found. IfSome found (λ traces. All (λ t. length t ≡ degree f.now) traces.items)) }
    ensures some { IfOk result (λ found. IfSome found (λ traces. 0 < length traces.items)) }
    ensures traces { (u : F → F) (es : List F) → AreDistinct es → f.now ≡ with_roots F.ops es → IsUnit F.ops u es → AreTraceSequences F.ops F.bits_of F.BITS exponent u es left.items
        → IfOk result (λ found. IfSome found (λ traces. AreTraceSequences F.ops F.bits_of F.BITS exponent u es traces.items)) }
    ensures found { (u : F → F) (es : List F) → AreDistinct es → f.now ≡ with_roots F.ops es → IsUnit F.ops u es → IfOk result IsSome }
{
    if left.is_empty() {
        traces_from(alloc, f, exponent)
    } else {
        Ok(Some(left))
    }
}
