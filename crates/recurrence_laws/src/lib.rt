//! The laws of linear recurrences over a ring of characteristic 2, in `proofs/`.
#![tactic(auto)]

ghost use Rattle.std.specs.Prelude.{ℕ, ◌+◌, ◌<◌, ◌≤◌, List, length, take};
ghost use Rattle.field_rules.specs.Ops.{Ops, IsRing};
ghost use Rattle.poly_rules.specs.Recurrences.{IsRecurrence};

/// Where a recurrence holds of the first m items and not of one more, its length and that of each recurrence that
/// holds of more than m items are together above m: Massey 1969, theorem 1. It does nothing when it runs: its contract
/// is the theorem.
pub fn lengths_are_together_above<A>()
    ensures { (ops : Ops A) (bs cs s : List A) (m : ℕ) → IsRing ops → IsRecurrence ops bs (take m s) → ¬ IsRecurrence ops bs (take (m + 1) s) → m < length s → IsRecurrence ops cs s
        → m + 1 ≤ length bs + length cs }
{}
