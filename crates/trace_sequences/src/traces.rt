//! The sequences of traces of multiples of the members of a set.

ghost use Rattle.std.specs.Prelude.{◌≡◌, ℕ, ◌+◌, ◌<◌, ◌≤◌, List, [], length, get_or, replicate, IfOk, IfSome, IsSome, IsTrue};
ghost use Rattle.std.specs.List.{All};
ghost use Rattle.field_rules.specs.Fields.{trace_of};
ghost use Rattle.field_rules.specs.Lists.{AreDistinct};
ghost use Rattle.poly_rules.specs.Polynomials.{degree};
ghost use Rattle.poly_rules.specs.Roots.{with_roots};
ghost use Rattle.sequence_laws.specs.Sequences.{IsUnit, sequence_of};
ghost use Rattle.trace_sequences.specs.Rows.{AreRows, AreTraceSequences};

use crate::Sequence;
use crate::lists::zeros;
use crate::rows::rows_of;
use base_types::OutOfMemory;
use field_core::Field;
use poly_ops::Poly;
use std::alloc::Global;

/// From how many members on the sequences of few traces are made at a time.
const FEW_PAY_FROM: usize = 300;

/// How many these are.
const FEW_TRACES: u32 = 5;

/// The sequences of the traces of the next exponents, or none where `f` can't be the polynomial of a set: where it is,
/// `x ^ (2 ^ BITS)` and x have the same values at its roots.
pub fn traces_from<F: Field>(
    alloc: Global,
    f: &Poly<F>,
    exponent: u32,
) -> Result<Option<Vec<Sequence<F>>>, OutOfMemory>
    requires degree { 2 ≤ degree f.now }
    requires exponent { exponent < F.BITS }
    ensures size { IfOk result (λ found. IfSome found (λ traces. All (λ t. length t ≡ degree f.now) traces.items)) }
    ensures some { IfOk result (λ found. IfSome found (λ traces. 0 < length traces.items)) }
    ensures traces { (u : F → F) (es : List F) → AreDistinct es → f.now ≡ with_roots F.ops es → IsUnit F.ops u es
        → IfOk result (λ found. IfSome found (λ traces. AreTraceSequences F.ops F.bits_of F.BITS exponent u es traces.items)) }
    ensures found { (u : F → F) (es : List F) → AreDistinct es → f.now ≡ with_roots F.ops es → IsUnit F.ops u es → IfOk result IsSome }
{
    let rows = rows_of(alloc, f)?;
    if !returns(rows.as_slice()) {
        return Ok(None);
    }
    let n = f.coeffs().len() - 1;
    let traces = trace_sequences(alloc, rows.as_slice(), n, exponent)?;
    Ok(Some(traces))
}

/// Whether the last row is that of x again.
fn returns<F: Field>(rows: &[Sequence<F>]) -> bool
    requires { F.BITS < length rows.now }
    ensures { get_or rows.now 0 [] ≡ get_or rows.now F.BITS [] → IsTrue result }
{
    rows[0].as_slice() == rows[F::BITS as usize].as_slice()
}

/// The sequences of the traces of the next exponents.
fn trace_sequences<F: Field>(
    alloc: Global,
    rows: &[Sequence<F>],
    n: usize,
    exponent: u32,
) -> Result<Vec<Sequence<F>>, OutOfMemory>
    requires count { F.BITS ≤ length rows.now }
    requires sizes { All (λ r. length r ≡ n) rows.now }
    requires exponent { exponent < F.BITS }
    ensures size { IfOk result (λ traces. All (λ t. length t ≡ n) traces.items) }
    ensures some { IfOk result (λ traces. 0 < length traces.items) }
    ensures each { (u : F → F) (es : List F) → length es ≡ n → AreRows F.ops u es rows.now
        → IfOk result (λ traces. AreTraceSequences F.ops F.bits_of F.BITS exponent u es traces.items) }
{
    let end = F::BITS.min(exponent.saturating_add(traces_at_a_time(n)));
    let mut traces = Vec::with_capacity(alloc, (end - exponent) as usize)?;
    for j in exponent..end {
        let trace = trace_sequence(alloc, rows, F::basis(j), n)?;
        traces.push(Sequence::new(trace))?;
    }
    Ok(traces)
}

/// How many sequences of traces are made at a time for n members. Each is carried down to the parts as a correlation,
/// which costs less than further rows of each part. So there are as many as mostly tell all members apart; but of many
/// members only so many as leave small parts, whose rows cost less than such long correlations.
fn traces_at_a_time(n: usize) -> u32
    ensures { 0 < result }
{
    if n < FEW_PAY_FROM {
        usize::BITS - n.leading_zeros() + 1
    } else {
        FEW_TRACES
    }
}

/// The sequence of the traces of the products of `b` with the members.
fn trace_sequence<F: Field>(
    alloc: Global,
    rows: &[Sequence<F>],
    b: F,
    n: usize,
) -> Result<Vec<F>, OutOfMemory>
    requires count { F.BITS ≤ length rows.now }
    requires sizes { All (λ r. length r ≡ n) rows.now }
    ensures size { IfOk result (λ t. length t.items ≡ n) }
    ensures trace { (u : F → F) (es : List F) → length es ≡ n → AreRows F.ops u es rows.now
        → IfOk result (λ t. t.items ≡ sequence_of F.ops (λ e. F.ops.times (trace_of F.ops F.BITS (F.ops.times b e)) (u e)) es 0 (length es)) }
{
    let mut sum = zeros(alloc, n)?;
    add_trace(sum.as_mut_slice(), rows, b);
    Ok(sum)
}

/// Adds its items to zeros.
fn add_trace<F: Field>(sum: &mut [F], rows: &[Sequence<F>], b: F)
    requires zeros { sum.old ≡ replicate (length sum.old) F.ops.zero }
    requires count { F.BITS ≤ length rows.now }
    requires sizes { All (λ r. length r ≡ length sum.old) rows.now }
    ensures { (u : F → F) (es : List F) → length es ≡ length sum.old → AreRows F.ops u es rows.now
        → sum.new ≡ sequence_of F.ops (λ e. F.ops.times (trace_of F.ops F.BITS (F.ops.times b e)) (u e)) es 0 (length es) }
{
    let mut power = b;
    for i in 0..F::BITS {
        F::axpy(sum, power, rows[i as usize].as_slice());
        power = power.square();
    }
}
