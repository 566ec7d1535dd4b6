//! The laws of the power sums of a set, in `proofs/`: its shortest recurrence has the set for roots, and traces tell its
//! members apart until each stands alone.
#![tactic(auto)]

ghost use Rattle.std.specs.Prelude.{◌≡◌, ◌≢◌, ℕ, ◌*◌, ◌≤◌, List, ◌∷◌, length, reverse};
ghost use Rattle.std.specs.List.{All};
ghost use Rattle.field_rules.specs.Ops.{Ops, IsRing};
ghost use Rattle.field_rules.specs.Fields.{IsField, IsSeparatedByTrace};
ghost use Rattle.field_rules.specs.Lists.{AreDistinct};
ghost use Rattle.sketch_rules.specs.PowerSums.{power_sums};
ghost use Rattle.poly_rules.specs.Recurrences.{IsShortest};
ghost use Rattle.poly_rules.specs.Roots.{with_roots};
ghost use Rattle.splitting_laws.specs.Alike.{IsAlike};

/// The shortest recurrence of the sums of a set of nonzero elements has the set for its roots, where there are twice as
/// many sums as members. It does nothing when it runs: its contract is the theorem.
pub fn shortest_recurrence_has_the_set_for_roots<A>()
    ensures { (ops : Ops A) (bits n : ℕ) (cs es : List A) → IsRing ops → IsField ops bits → AreDistinct es → All (λ e. e ≢ ops.zero) es
        → 2 * length es ≤ n → IsShortest ops cs (power_sums ops es 1 n) → reverse (ops.one ∷ cs) ≡ with_roots ops es }
{}

/// At first nothing is asked of a set whose members are alike, and at the end of the basis no two members are. It does
/// nothing when it runs: its contract is the theorem.
pub fn traces_tell_all_apart<A>()
    ensures begins { (ops : Ops A) (bits_of : A → ℕ) (bits : ℕ) (es : List A) → IsAlike ops bits_of bits 0 es }
    ensures ends { (ops : Ops A) (bits_of : A → ℕ) (bits : ℕ) (es : List A) → ((a b : A) → a ≢ b → IsSeparatedByTrace ops bits_of bits a b) → AreDistinct es
        → IsAlike ops bits_of bits bits es → length es ≤ 1 }
{}
