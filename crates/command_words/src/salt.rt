//! Salts on the command line.

ghost use Rattle.std.specs.Prelude.{ℕ, MatchOption};
ghost use Rattle.command_words.specs.Words.{IsSalt};

use hex::FromHex;

/// The salt that the word spells by 16 digits of either case, the most significant first.
pub fn salt_of(word: &str) -> Option<u64>
    ensures { MatchOption result ((n : ℕ) → ¬ IsSalt word.now n) (IsSalt word.now) }
{
    match <[u8; 8] as FromHex>::from_hex(word) {
        Ok(bytes) => Some(u64::from_be_bytes(bytes)),
        Err(_) => None,
    }
}
