//! The laws of polynomials over a ring of characteristic 2, in `proofs/`: there is one remainder, and there are
//! no more roots than the degree.
#![tactic(auto)]

ghost use Rattle.std.specs.Prelude.{◌≡◌, ℕ, ◌≤◌, List, length};
ghost use Rattle.std.specs.List.{All};
ghost use Rattle.field_rules.specs.Ops.{Ops, IsRing};
ghost use Rattle.field_rules.specs.Fields.{IsField};
ghost use Rattle.field_rules.specs.Lists.{AreDistinct};
ghost use Rattle.poly_rules.specs.Polynomials.{IsSamePolynomial, IsTrimmed, IsMonic, sum_of, product_of};
ghost use Rattle.poly_rules.specs.Remainders.{IsRemainder};
ghost use Rattle.poly_rules.specs.Roots.{IsRoot, with_roots};
ghost use Rattle.poly_laws.specs.Squares.{square_of};

/// Each polynomial has one remainder by a monic polynomial. It does nothing when it runs: its contract is the
/// theorem.
pub fn one_remainder<A>()
    ensures exists { (ops : Ops A) (n : ℕ) (f a : List A) → IsRing ops → IsMonic ops n f → (r : List A) × IsRemainder ops a f r }
    ensures unique { (ops : Ops A) (n : ℕ) (f a r s : List A) → IsRing ops → IsMonic ops n f → IsRemainder ops a f r → IsRemainder ops a f s → IsSamePolynomial ops r s }
    ensures one_list { (ops : Ops A) (n : ℕ) (f a r s : List A) → IsRing ops → IsMonic ops n f → IsRemainder ops a f r → IsRemainder ops a f s
        → IsTrimmed ops r → IsTrimmed ops s → r ≡ s }
{}

/// Remainders may be taken before or after sums and products. It does nothing when it runs: its contract is the
/// theorem.
pub fn remainders_respect_sums_and_products<A>()
    ensures sums { (ops : Ops A) (f a b r s : List A) → IsRing ops → IsRemainder ops a f r → IsRemainder ops b f s → IsRemainder ops (sum_of ops a b) f (sum_of ops r s) }
    ensures products { (ops : Ops A) (f a b r s t : List A) → IsRing ops → IsRemainder ops a f r → IsRemainder ops b f s → IsRemainder ops (product_of ops r s) f t
        → IsRemainder ops (product_of ops a b) f t }
{}

/// The square of a polynomial has the squares of its coefficients, each with a zero behind it. It does nothing when
/// it runs: its contract is the theorem.
pub fn squares_are_apart<A>()
    ensures { (ops : Ops A) (f : List A) → IsRing ops → IsSamePolynomial ops (product_of ops f f) (square_of ops f) }
{}

/// A monic polynomial has no more roots than its degree, and one with as many is the product of their factors. It does
/// nothing when it runs: its contract is the theorem.
pub fn roots_are_within_the_degree<A>()
    ensures within { (ops : Ops A) (bits n : ℕ) (f rs : List A) → IsRing ops → IsField ops bits → IsMonic ops n f → All (IsRoot ops f) rs → AreDistinct rs
        → length rs ≤ n }
    ensures factors { (ops : Ops A) (bits n : ℕ) (f rs : List A) → IsRing ops → IsField ops bits → IsMonic ops n f → All (IsRoot ops f) rs → AreDistinct rs
        → length rs ≡ n → IsSamePolynomial ops f (with_roots ops rs) }
    ensures monic { (ops : Ops A) (rs : List A) → IsRing ops → IsMonic ops (length rs) (with_roots ops rs) }
    ensures roots { (ops : Ops A) (rs : List A) → IsRing ops → All (IsRoot ops (with_roots ops rs)) rs }
{}
