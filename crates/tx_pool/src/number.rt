//! Decimal numbers in a line of text.

ghost use Rattle.std.specs.Prelude.{◌≡◌, ℕ, ◌<◌, ◌≤◌, ◌^◌, MatchOption};
ghost use Rattle.line_rules.specs.Numbers as spec;

/// The number from `low` to `high` that a word spells as it is written: without a sign, and without a zero in front.
pub fn number_within(low: u64, high: u64, word: &[u8]) -> Option<u64>
    requires { high < 2 ^ 60 }
    ensures { result ≡ spec.number_within low high word.now }
{
    let number = digits_of(high, word)?;
    let mut buffer = itoa::Buffer::new();
    if low <= number && buffer.format(number).as_bytes() == word {
        Some(number)
    } else {
        None
    }
}

/// The number of some decimal digits, where it is at most `high`.
fn digits_of(high: u64, word: &[u8]) -> Option<u64>
    requires { high < 2 ^ 60 }
    ensures { MatchOption result ((n : ℕ) → spec.number_of word.now ≡ Some n → high < n) (λ n. (n ≤ high) × (spec.number_of word.now ≡ Some n)) }
{
    let mut number = 0;
    for digit in word {
        if !digit.is_ascii_digit() {
            return None;
        }
        number = number * 10 + (digit - b'0') as u64;
        if high < number {
            return None;
        }
    }
    Some(number)
}
