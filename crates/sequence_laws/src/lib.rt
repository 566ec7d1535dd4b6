//! The laws of sequences: of weights on a set, the sums of their products with the powers of the members. A set is taken
//! apart by them with no table of remainders and no sums of its parts.
#![tactic(auto)]

ghost use Rattle.std.specs.Prelude.{◌≡◌, ◌≢◌, ◌⊎◌, ℕ, ◌+◌, ◌-◌, ◌*◌, ◌^◌, ◌<◌, ◌≤◌, Bool, List, ◌∷◌, [], ◌++◌, length, replicate, reverse, get_or, take, drop, filter, not, nat_eq};
ghost use Rattle.std.specs.List.{All};
ghost use Rattle.field_rules.specs.Lists.{AreDistinct};
ghost use Rattle.field_rules.specs.Ops.{Ops, IsRing};
ghost use Rattle.field_rules.specs.Fields.{IsField, dot_of, conjugate, trace_of, with_multiple};
ghost use Rattle.field_rules.specs.Numbered.{IsNumbered};
ghost use Rattle.poly_rules.specs.Polynomials.{value_at};
ghost use Rattle.poly_rules.specs.Recurrences.{IsShortest};
ghost use Rattle.poly_rules.specs.Roots.{with_roots};
ghost use Rattle.splitting_laws.specs.Alike.{IsAlike};
ghost use Rattle.sequence_laws.specs.Sequences.{weighted, sequence_of, IsUnit, IsSquareSequence, row_of};
ghost use Rattle.sequence_laws.specs.Parts.{IsTraceSequence, IsPart, IsHalf, AreCorrelations};

/// Over a set of distinct elements there are weights with any given sums, as many sums as elements, and they are the
/// only ones. It does nothing when it runs: its contract is the theorem.
pub fn weights_exist<A>()
    ensures some { (ops : Ops A) (bits_of : A → ℕ) (bits : ℕ) (es : List A) (t : ℕ → A) → IsRing ops → IsField ops bits → IsNumbered ops bits_of bits → AreDistinct es
        → (w : A → A) × ((k : ℕ) → k < length es → weighted ops w k es ≡ t k) }
    ensures only { (ops : Ops A) (bits : ℕ) (es : List A) (v w : A → A) → IsRing ops → IsField ops bits → AreDistinct es
        → ((k : ℕ) → k < length es → weighted ops v k es ≡ weighted ops w k es) → All (λ e. v e ≡ w e) es }
{}

/// The rows of `x, x^2, x^4, ..`: the first stand in the sums of the unit, each further one is made of the one before, a
/// trace is a sum of their multiples, and that of `x ^ (2 ^ bits)` is that of x. It does nothing when it runs: its
/// contract is the theorem.
pub fn rows_follow<A>()
    ensures sums { (ops : Ops A) (u : A → A) (es f s : List A) (i : ℕ) → IsRing ops → f ≡ with_roots ops es → IsUnit ops u es → 1 ≤ i → i ≤ length es
        → s ≡ sequence_of ops u es (length es - 1) i
        → s ++ dot_of ops (drop (length es - i) (take (length es) f)) s ∷ [] ≡ sequence_of ops u es (length es - 1) (i + 1) }
    ensures first { (ops : Ops A) (u : A → A) (es s : List A) (j m : ℕ) → IsRing ops → IsUnit ops u es → 2 ^ j + 1 ≤ length es → 2 ^ j + 1 ≤ m
        → s ≡ sequence_of ops u es (length es - 1) m
        → replicate (length es - 1 - 2 ^ j) ops.zero ++ take (2 ^ j + 1) s ≡ row_of ops u es j }
    ensures next { (ops : Ops A) (bits : ℕ) (u : A → A) (es f s t : List A) (j : ℕ) → IsRing ops → IsField ops bits → AreDistinct es → f ≡ with_roots ops es → IsUnit ops u es
        → s ≡ row_of ops u es j → IsSquareSequence ops f s t → t ≡ row_of ops u es (j + 1) }
    ensures trace { (ops : Ops A) (b c : A) (u : A → A) (es acc row : List A) (m : ℕ) → IsRing ops → c ≡ conjugate ops m b
        → acc ≡ sequence_of ops (λ e. ops.times (trace_of ops m (ops.times b e)) (u e)) es 0 (length es) → row ≡ row_of ops u es m
        → with_multiple ops acc c row ≡ sequence_of ops (λ e. ops.times (trace_of ops (m + 1) (ops.times b e)) (u e)) es 0 (length es) }
    ensures returns { (ops : Ops A) (bits : ℕ) (u : A → A) (es : List A) → IsRing ops → IsField ops bits → row_of ops u es bits ≡ row_of ops u es 0 }
{}

/// The shortest recurrence of all items but the last of a trace's sequence is that of a half of the set where it gives 0 or
/// 1 at the last item. Else both halves have as many members, and the shortest recurrence of all items is that of one. It
/// does nothing when it runs: its contract is the theorem.
pub fn halves_are_told<A>()
    ensures none { (ops : Ops A) (bits_of : A → ℕ) (bits exponent m : ℕ) (b : A) (u : A → A) (es z cs : List A) → IsRing ops → IsField ops bits → IsNumbered ops bits_of bits
        → bits_of b ≡ 2 ^ exponent → AreDistinct es → IsUnit ops u es → length es ≡ m + 1 → IsTraceSequence ops bits_of bits exponent u es z → IsAlike ops bits_of bits exponent es → IsShortest ops cs (take m z)
        → length cs ≡ 0 → IsAlike ops bits_of bits (exponent + 1) es }
    ensures front { (ops : Ops A) (bits_of : A → ℕ) (bits exponent m : ℕ) (b : A) (u : A → A) (es z cs : List A) → IsRing ops → IsField ops bits → IsNumbered ops bits_of bits
        → bits_of b ≡ 2 ^ exponent → AreDistinct es → IsUnit ops u es → length es ≡ m + 1 → IsTraceSequence ops bits_of bits exponent u es z → IsAlike ops bits_of bits exponent es → IsShortest ops cs (take m z)
        → 1 ≤ length cs → (dot_of ops (reverse (ops.one ∷ cs)) (drop (m - length cs) z) ≡ ops.zero) ⊎ (dot_of ops (reverse (ops.one ∷ cs)) (drop (m - length cs) z) ≡ ops.one)
        → IsHalf ops bits_of bits (exponent + 1) es (reverse (ops.one ∷ cs)) }
    ensures whole { (ops : Ops A) (bits_of : A → ℕ) (bits exponent m : ℕ) (b : A) (u : A → A) (es z cs ds : List A) → IsRing ops → IsField ops bits → IsNumbered ops bits_of bits
        → bits_of b ≡ 2 ^ exponent → AreDistinct es → IsUnit ops u es → length es ≡ m + 1 → IsTraceSequence ops bits_of bits exponent u es z → IsAlike ops bits_of bits exponent es → IsShortest ops cs (take m z)
        → dot_of ops (reverse (ops.one ∷ cs)) (drop (m - length cs) z) ≢ ops.zero → dot_of ops (reverse (ops.one ∷ cs)) (drop (m - length cs) z) ≢ ops.one → IsShortest ops ds z
        → IsHalf ops bits_of bits (exponent + 1) es (reverse (ops.one ∷ ds)) }
{}

/// A half of a set takes the correlations of the whole's sequences with the other half's polynomial. It does nothing
/// when it runs: its contract is the theorem.
pub fn halves_take_correlations<A>()
    ensures whole { (ops : Ops A) (bits_of : A → ℕ) (bits first : ℕ) (es f : List A) → IsRing ops → IsField ops bits → IsNumbered ops bits_of bits → AreDistinct es → f ≡ with_roots ops es
        → (u : A → A) × IsPart ops bits_of bits first u es f [] }
    ensures part { (ops : Ops A) (bits_of : A → ℕ) (bits first : ℕ) (u : A → A) (es f g h : List A) (sequences correlations : List (List A)) (q : A → Bool) → IsRing ops → IsField ops bits → IsNumbered ops bits_of bits
        → IsPart ops bits_of bits first u es f sequences → g ≡ with_roots ops (filter q es) → h ≡ with_roots ops (filter (λ e. not (q e)) es)
        → AreCorrelations ops h (length (filter q es)) sequences correlations → IsPart ops bits_of bits first (λ e. ops.times (u e) (value_at ops h e)) (filter q es) g correlations }
    ensures other { (ops : Ops A) (bits_of : A → ℕ) (bits first : ℕ) (u : A → A) (es f g h : List A) (sequences correlations : List (List A)) (q : A → Bool) → IsRing ops → IsField ops bits → IsNumbered ops bits_of bits
        → IsPart ops bits_of bits first u es f sequences → g ≡ with_roots ops (filter q es) → h ≡ with_roots ops (filter (λ e. not (q e)) es)
        → AreCorrelations ops g (length (filter (λ e. not (q e)) es)) sequences correlations → IsPart ops bits_of bits first (λ e. ops.times (u e) (value_at ops g e)) (filter (λ e. not (q e)) es) h correlations }
{}
