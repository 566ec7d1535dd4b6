//! A half of a set, told by the sequence of a trace.

ghost use Rattle.std.specs.Prelude.{◌≡◌, ℕ, ◌+◌, ◌^◌, ◌<◌, ◌≤◌, List, length, IfOk, IfSome, None};
ghost use Rattle.field_rules.specs.Lists.{AreDistinct};
ghost use Rattle.poly_rules.specs.Polynomials.{degree, IsMonic};
ghost use Rattle.splitting_laws.specs.Alike.{IsAlike};
ghost use Rattle.sequence_laws.specs.Sequences.{IsUnit};
ghost use Rattle.sequence_laws.specs.Parts.{IsTraceSequence, IsHalf};

use base_types::OutOfMemory;
use bm_solver::Search;
use field_core::Field;
use poly_ops::Poly;
use std::alloc::Global;

/// The polynomial of a half of the set whose sequence of a trace this is, or none where all members have one trace. It is
/// the shortest recurrence of all items but the last where that gives 0 or 1 at the last, and else that of all.
pub fn half_of<F: Field>(alloc: Global, trace: &[F]) -> Result<Option<Poly<F>>, OutOfMemory>
    requires { 1 ≤ length trace.now }
    ensures monic { IfOk result (λ r. IfSome r (λ f. IsMonic F.ops (degree f) f)) }
    ensures half { (exponent : ℕ) (b : F) (u : F → F) (es : List F) → F.bits_of b ≡ 2 ^ exponent → AreDistinct es → IsUnit F.ops u es → length es ≡ length trace.now
        → IsTraceSequence F.ops F.bits_of F.BITS exponent u es trace.now → IsAlike F.ops F.bits_of F.BITS exponent es
        → IfOk result (λ r. IfSome r (λ f. IsHalf F.ops F.bits_of F.BITS (exponent + 1) es f)) }
    ensures none { (exponent : ℕ) (b : F) (u : F → F) (es : List F) → F.bits_of b ≡ 2 ^ exponent → AreDistinct es → IsUnit F.ops u es → length es ≡ length trace.now
        → IsTraceSequence F.ops F.bits_of F.BITS exponent u es trace.now → IsAlike F.ops F.bits_of F.BITS exponent es
        → IfOk result (λ r. r ≡ None → IsAlike F.ops F.bits_of F.BITS (exponent + 1) es) }
{
    let front = Search::over(alloc, trace)?.read(trace.len() - 1)?;
    let last = front.discrepancy();
    if front.length() == 0 {
        return Ok(None);
    }
    if last == F::ZERO || last == F::ONE {
        let recurrence = front.recurrence()?;
        return Ok(Some(recurrence.into_monic_form()));
    }
    let recurrence = front.read(1)?.recurrence()?;
    Ok(Some(recurrence.into_monic_form()))
}
