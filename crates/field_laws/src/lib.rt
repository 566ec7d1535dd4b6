//! The laws of fields and of the product of elements, as lemmas in `proofs/`; functions state those that are public.
#![tactic(auto)]

ghost use Rattle.std.specs.Prelude.{◌≡◌, ℕ, ◌<◌, ◌^◌};
ghost use Rattle.field_rules.specs.Ops.{Ops, IsRing};
ghost use Rattle.field_rules.specs.Fields.{IsField};
ghost use Rattle.field_rules.specs.Elements.{IsWidth, IsProduct, product};
ghost use Rattle.field_rules.specs.Numbered.{IsNumbered};
ghost use Rattle.field_laws.specs.Certified.{Certificate};

/// Two elements have one product at each width, which is what long division by the modulus leaves. It does nothing
/// when it runs: its contract is the theorem.
pub fn one_product()
    ensures exists { (width a b : ℕ) → IsWidth width → a < 2 ^ width → b < 2 ^ width → IsProduct width a b (product width a b) }
    ensures unique { (width a b r : ℕ) → IsWidth width → a < 2 ^ width → b < 2 ^ width → IsProduct width a b r → r ≡ product width a b }
{}

/// A type that is numbered by the numbers below 2 ^ width is a ring, and a field where the width passes the tests of
/// `Certified`, as 32 does. It does nothing when it runs: its contract is the theorem.
pub fn certified_widths_are_fields<A>()
    ensures ring { (ops : Ops A) (bits_of : A → ℕ) (width : ℕ) → IsWidth width → IsNumbered ops bits_of width → IsRing ops }
    ensures field { (ops : Ops A) (bits_of : A → ℕ) (width : ℕ) → Certificate width → IsNumbered ops bits_of width → IsField ops width }
    ensures certified { Certificate 32 }
{}
