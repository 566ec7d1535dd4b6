//! The words of a line, from the left.

ghost use Rattle.std.specs.Prelude.{◌≡◌};
ghost use Rattle.wire_rules.specs.ShownReading.{fields_of};
ghost use Rattle.shown_reading.specs.Words.{first_word, other_words};

use std::marker::Model;

/// The words of a line that are left: what stands between spaces, so that a word may be empty. A contract sees the list
/// of them.
#[derive(Debug, Drop)]
pub(crate) struct Words<'a> {
    rest: Option<&'a [u8]>,
}

impl<'a> Model for Words<'a> {
    ghost use Rattle.std.specs.Prelude.{ℕ, List, option_copied};
    ghost use Rattle.shown_reading.specs.Words.{words_left};

    ghost Value = { List (List ℕ) };

    ghost view = { λ w. words_left (option_copied w.rest) };
}

impl<'a> Words<'a> {
    /// The words of `line`.
    pub(crate) fn of(line: &'a [u8]) -> Self
        ensures { result ≡ fields_of line.now }
    {
        Words { rest: Some(line) }
    }

    /// The next word, or no bytes where none is left.
    pub(crate) fn word(&mut self) -> &'a [u8]
        ensures word { result.now ≡ first_word self.old }
        ensures left { self.new ≡ other_words self.old }
    {
        self.next().unwrap_or(&[])
    }
}

impl<'a> Iterator for Words<'a> {
    ghost use Rattle.std.specs.Iterator.{YieldsFirstRef, item_count};

    type Item = &'a [u8];

    ghost next_gives = { YieldsFirstRef (λ words. words) };

    ghost remaining = { item_count (λ words. words) };

    fn next(&mut self) -> Option<&'a [u8]> {
        let rest = self.rest?;
        match memchr::memchr(b' ', rest) {
            Some(end) => {
                self.rest = Some(&rest[end + 1..]);
                Some(&rest[..end])
            }
            None => {
                self.rest = None;
                Some(rest)
            }
        }
    }
}
