//! What generic code asks of a finite field of characteristic 2.

ghost use Rattle.std.specs.Prelude.{◌≡◌, ◌≢◌, ◌↔◌, ℕ, ◌<◌, ◌^◌, bit_xor, nat_eq, IsTrue, MatchOption, length, map};
ghost use Rattle.std.specs.Ordering.{nat_cmp};
ghost use Rattle.field_rules.specs.Ops.{Ops, IsRing, with_odd_powers};
ghost use Rattle.field_rules.specs.Fields.{IsField, IsSeparatedByTrace, trace_of, with_multiple, dot_of};
ghost use Rattle.field_rules.specs.Elements.{IsProduct};
ghost use Rattle.field_rules.specs.Lists.{sums_of_both};
ghost use Rattle.field_rules.specs.Numbered.{IsNumbered};
ghost use Rattle.sketch_rules.specs.PowerSums.{odd_power_sums};

/// A field of `2 ^ BITS` elements. Element n is the polynomial over GF(2) that has bit i of n as the coefficient of
/// `x ^ i`.
pub trait Field: Copy + Eq + Ord {
    ghost BITS: { ℕ };

    ghost ZERO: { Self };

    ghost ONE: { Self };

    ghost ops: { Ops Self };

    ghost bits_of: { Self → ℕ };

    /// How many bits an element has.
    const BITS: u32;

    const ZERO: Self;

    const ONE: Self;

    /// The element of these bits.
    fn from_bits(bits: u64) -> Self
        requires { bits < 2 ^ BITS }
        ensures { bits_of result ≡ bits };

    /// The bits of an element.
    fn to_bits(self) -> u64
        ensures value { result ≡ bits_of self }
        ensures below { result < 2 ^ BITS };

    fn add(self, b: Self) -> Self
        ensures sum { result ≡ ops.plus self b }
        ensures bits { bits_of result ≡ bit_xor (bits_of self) (bits_of b) };

    fn mul(self, b: Self) -> Self
        ensures times { result ≡ ops.times self b }
        ensures product { IsProduct BITS (bits_of self) (bits_of b) (bits_of result) };

    fn square(self) -> Self
        ensures { result ≡ ops.times self self }
    {
        self.mul(self)
    }

    /// The element whose product with this one is 1.
    fn inv(self) -> Self
        requires { self ≢ ops.zero }
        ensures { ops.times self result ≡ ops.one }
    {
        let mut power = self;
        let mut product = Self::ONE;
        for _ in 1..Self::BITS {
            power = power.square();
            product = product.mul(power);
        }
        product
    }

    /// `x ^ j`.
    fn basis(j: u32) -> Self
        requires { j < BITS }
        ensures { bits_of result ≡ 2 ^ j };

    /// Whether the trace is 1. It is 0 otherwise.
    fn trace(self) -> bool
        ensures { IsTrue result ↔ (trace_of ops BITS self ≡ ops.one) }
    {
        let mut power = self;
        let mut sum = Self::ZERO;
        for _ in 0..Self::BITS {
            sum = sum.add(power);
            power = power.square();
        }
        sum == Self::ONE
    }

    /// A root of `y ^ 2 + y = self`, which is there for half of all elements, those of trace 0.
    fn artin_schreier_root(self) -> Option<Self>
        ensures { MatchOption result ((y : Self) → ops.plus (ops.times y y) y ≢ self) (λ y. ops.plus (ops.times y y) y ≡ self) };

    /// Adds `k` times the item of `x` at each index to the item of `acc` at that index.
    fn axpy(acc: &mut [Self], k: Self, x: &[Self])
        requires { length acc.old ≡ length x.now }
        ensures { acc.new ≡ with_multiple ops acc.old k x.now }
    {
        for i in 0..acc.len() {
            acc[i] = acc[i].add(k.mul(x[i]));
        }
    }

    /// The sum of the products of the items at the same index.
    fn dot(x: &[Self], y: &[Self]) -> Self
        requires { length x.now ≡ length y.now }
        ensures { result ≡ dot_of ops x.now y.now }
    {
        let mut sum = Self::ZERO;
        for i in 0..x.len() {
            sum = sum.add(x[i].mul(y[i]));
        }
        sum
    }

    /// Squares each item.
    fn square_each(x: &mut [Self])
        ensures { x.new ≡ map (λ a. ops.times a a) x.old }
    {
        for a in x.iter_mut() {
            *a = a.square();
        }
    }

    /// Adds `e ^ (2i + 1)` to the item at index i, for each index.
    fn odd_powers_into(acc: &mut [Self], e: Self)
        ensures { acc.new ≡ with_odd_powers ops e 0 acc.old }
    {
        let square = e.mul(e);
        let mut power = e;
        for a in acc.iter_mut() {
            *a = a.add(power);
            power = power.mul(square);
        }
    }

    /// Adds to the item at each index i the sum of the `(2i + 1)`-th powers of the elements.
    fn power_sums_into(acc: &mut [Self], elements: &[Self])
        ensures { acc.new ≡ sums_of_both ops acc.old (odd_power_sums ops elements.now 0 (length acc.old)) }
    {
        for e in elements {
            Self::odd_powers_into(acc, *e);
        }
    }

    ghost ring: { IsRing ops };

    ghost numbered: { IsNumbered ops bits_of BITS };

    ghost field: { IsField ops BITS };

    ghost separates: { (a b : Self) → a ≢ b → IsSeparatedByTrace ops bits_of BITS a b };

    ghost zero_is: { ops.zero ≡ ZERO };

    ghost one_is: { ops.one ≡ ONE };

    ghost equal: { (a b : Self) → Self.eq a b ≡ nat_eq (bits_of a) (bits_of b) };

    ghost ordered: { (a b : Self) → Self.cmp a b ≡ nat_cmp (bits_of a) (bits_of b) };

    ghost copies: { (a b : Self) → Self.is_clone a b → b ≡ a };
}
