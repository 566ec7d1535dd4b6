//! The two members of a set, solved at once.

ghost use Rattle.std.specs.Prelude.{◌≡◌, List, IfSome, IsSome};
ghost use Rattle.std.specs.List.Sorted.{IsPermutation};
ghost use Rattle.field_rules.specs.Lists.{AreDistinct};
ghost use Rattle.poly_rules.specs.Polynomials.{degree};
ghost use Rattle.poly_rules.specs.Roots.{with_roots};

use field_core::Field;
use poly_ops::Poly;

/// The members of the set of two that has the polynomial `z^2 + b z + c`: `b y` and `b y + b`, where y solves
/// `y^2 + y = c / b^2`. Where it is no set's, what is answered has no meaning.
pub fn two_members<F: Field>(f: &Poly<F>) -> Option<[F; 2]>
    requires { degree f.now ≡ 2 }
    ensures found { (es : List F) → AreDistinct es → f.now ≡ with_roots F.ops es → IsSome result }
    ensures members { (es : List F) → AreDistinct es → f.now ≡ with_roots F.ops es → IfSome result (λ pair. IsPermutation es pair) }
{
    let c = f.coeffs()[0];
    let b = f.coeffs()[1];
    if b == F::ZERO {
        return None;
    }
    let inverse = b.inv();
    let y = c.mul(inverse.square()).artin_schreier_root()?;
    let first = b.mul(y);
    Some([first, first.add(b)])
}
