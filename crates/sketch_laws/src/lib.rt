//! The laws of sketches, in `proofs/`: their sums, and that a sketch is of one set. Each is stated by a function.
#![tactic(auto)]

ghost use Rattle.std.specs.Prelude.{◌≡◌, ◌≢◌, ◌⊎◌, ◌↔◌, ℕ, ◌<◌, ◌≤◌, List, length, Some, None};
ghost use Rattle.std.specs.List.{All, AllPairs, Contains};
ghost use Rattle.field_rules.specs.Ops.{Ops, IsRing};
ghost use Rattle.field_rules.specs.Fields.{IsField};
ghost use Rattle.field_rules.specs.Numbered.{IsNumbered};
ghost use Rattle.field_rules.specs.Lists.{AreDistinct};
ghost use Rattle.sketch_rules.specs.PowerSums.{sketch_by};
ghost use Rattle.sketch_rules.specs.Sets.{difference};
ghost use Rattle.sketch_rules.specs.Sketches.{sketch_sum, sketch_at};
ghost use Rattle.sketch_rules.specs.Answers.{Answer, answer_at, answer_of};

/// The difference of two sets is strictly ascending and holds the numbers that are in exactly one of them, and its
/// sketch is the sum of their sketches. It does nothing when it runs: its contract is the theorem.
pub fn difference_of_sets()
    ensures rises { (xs ys : List ℕ) → AreDistinct xs → AreDistinct ys → AllPairs (λ a b. a < b) (difference xs ys) }
    ensures holds { (xs ys : List ℕ) (n : ℕ) → Contains (difference xs ys) n ↔ ((Contains xs n × (¬ Contains ys n)) ⊎ (Contains ys n × (¬ Contains xs n))) }
    ensures sketches { (width : ℕ) (xs ys : List ℕ) (c : ℕ) → AreDistinct xs → AreDistinct ys
        → sketch_sum (sketch_at width xs c) (sketch_at width ys c) ≡ sketch_at width (difference xs ys) c }
{}

/// Over a field whose elements are told by their bits, two sets of no more elements than the capacity are the same where
/// their sketches are, over elements and over numbers, and so where a set has a given sketch it is the answer to it. It
/// does nothing when it runs: its contract is the theorem.
pub fn sketches_are_unique<A>()
    ensures elements { (ops : Ops A) (bits_of : A → ℕ) (width : ℕ) → IsRing ops → IsField ops width → IsNumbered ops bits_of width → (c : ℕ) (xs ys : List A)
        → AllPairs (λ a b. bits_of a < bits_of b) xs → AllPairs (λ a b. bits_of a < bits_of b) ys → All (λ a. a ≢ ops.zero) xs → All (λ a. a ≢ ops.zero) ys
        → length xs ≤ c → length ys ≤ c → sketch_by ops xs c ≡ sketch_by ops ys c → xs ≡ ys }
    ensures numbers { (ops : Ops A) (bits_of : A → ℕ) (width : ℕ) → IsRing ops → IsField ops width → IsNumbered ops bits_of width → (sums xs ys : List ℕ)
        → Answer width sums xs → Answer width sums ys → xs ≡ ys }
    ensures answer { (ops : Ops A) (bits_of : A → ℕ) (width : ℕ) → IsRing ops → IsField ops width → IsNumbered ops bits_of width → (sums es : List ℕ)
        → Answer width sums es → answer_at width sums ≡ Some es }
{}

/// A sketch of elements of 32 bits is of one set at most, and that set is what `answer_of` gives. It does nothing when it
/// runs: its contract is the theorem.
pub fn answers_are_unique()
    ensures unique { (sums xs ys : List ℕ) → Answer 32 sums xs → Answer 32 sums ys → xs ≡ ys }
    ensures exactly { (sums es : List ℕ) → (answer_of sums ≡ Some es) ↔ Answer 32 sums es }
{}

/// What the search for an answer gives is one, and where it gives none there is none, at any width. It does nothing when
/// it runs: its contract is the theorem.
pub fn answers_are_found()
    ensures some { (width : ℕ) (sums es : List ℕ) → answer_at width sums ≡ Some es → Answer width sums es }
    ensures none { (width : ℕ) (sums es : List ℕ) → answer_at width sums ≡ None → Answer width sums es → ⊥ }
{}
