//! Numbers in the words of the command line.

ghost use Rattle.std.specs.Prelude.{◌≡◌, ◌≢◌, ◌<◌, ◌^◌, ℕ, MatchOption};
ghost use Rattle.std.specs.Fmt.{decimal};

/// The number that the text spells in decimal digits, without a sign and without leading zeros.
pub fn decimal_of(text: &str) -> Option<u64>
    ensures { MatchOption result ((n : ℕ) → n < 2 ^ 64 → text.now ≢ decimal n) (λ n. text.now ≡ decimal n) }
{
    if text == "0" {
        return Some(0);
    }
    if text.starts_with('0') || text.starts_with('+') {
        return None;
    }
    text.parse().ok()
}
