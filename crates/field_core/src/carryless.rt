//! Products of polynomials over GF(2), and their remainders by `x ^ 32 + x ^ 7 + x ^ 3 + x ^ 2 + 1`.

ghost use Rattle.std.specs.Prelude.{◌≡◌, ℕ, ◌<◌, ◌^◌, ◌/◌, ◌%◌, bit_xor};
ghost use Rattle.field_rules.specs.Elements.{IsProduct, remainder};
ghost use Rattle.field_rules.specs.Elements.{carryless_product as carryless_product_of, product as product_of};
ghost use Rattle.field_core.specs.Windows.{IsWindowTable};

use crate::nibble_tables::nibble_sums;

/// The multiples of a polynomial by the 16 polynomials of 4 bits.
pub type WindowTable = [u64; 16];

/// The multiples of `a`.
pub fn window_table(a: u32) -> WindowTable
    ensures { IsWindowTable a result }
{
    let one = a as u64;
    nibble_sums!(one, one * 2, one * 4, one * 8)
}

/// The product of the polynomial of a table and `b`, by windows of 4 bits from the top.
#[inline(always)]
pub fn product_by_windows(table: &WindowTable, b: u32) -> u64
    ensures { (a : ℕ) → a < 2 ^ 32 → IsWindowTable a table.now → result ≡ carryless_product_of 32 a b }
{
    let mut sum: u64 = 0;
    for i in 0..8u32 {
        let window = (b >> (28 - 4 * i)) & 15;
        sum = (sum << 4) ^ table[window as usize];
    }
    sum
}

/// The product of two polynomials.
pub fn carryless_product(a: u32, b: u32) -> u64
    ensures { result ≡ carryless_product_of 32 a b }
{
    product_by_windows(&window_table(a), b)
}

/// What may stand for `p` where only its remainder by the modulus counts: its terms from `x ^ 32` on are replaced by
/// their product with the modulus's lower terms.
fn folded(p: u64) -> u64
    ensures { result ≡ bit_xor (p % 2 ^ 32) (carryless_product_of 8 (p / 2 ^ 32) 0x8D) }
{
    let high = p >> 32;
    (p & 0xffff_ffff) ^ (high ^ (high << 2) ^ (high << 3) ^ (high << 7))
}

/// The remainder of `p` by the modulus.
pub fn reduce(p: u64) -> u32
    ensures { result ≡ remainder 32 32 p }
{
    folded(folded(p)) as u32
}

/// The product of the elements of these bits.
pub fn product(a: u32, b: u32) -> u32
    ensures value { result ≡ product_of 32 a b }
    ensures product { IsProduct 32 a b result }
{
    reduce(carryless_product(a, b))
}

#[cfg(test)]
mod tests {
    use super::product;

    // the square and the cube of the highest power, among others
    #[test]
    fn products_are_known(rt: HostRuntime) {
        for (a, b, want) in [
            (0x8000_0000, 2, 0x8d),
            (0x8000_0000, 0x8000_0000, 0x4000_1037),
            (0x4000_1037, 0x8000_0000, 0x2004_6d72),
            (0xffff_ffff, 1, 0xffff_ffff),
        ] {
            assert_eq!(rt; product(a, b), want, "at {a}");
        }
    }
}
