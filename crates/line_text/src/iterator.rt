//! The lines of a text as an iterator.

ghost use Rattle.std.specs.Prelude.{◌≡◌, ◌+◌, ◌<◌, ◌^◌, length};
ghost use Rattle.line_rules.specs.Lines.{lines, lines_of, numbered_lines};

use crate::cut::cut;
use std::marker::Model;

/// A line that isn't empty, without its end.
#[derive(Clone, Copy, Debug, PartialEq, Eq)]
pub struct TextLine<'a> {
    /// Its number, counted from 1 with the empty lines.
    pub number: u64,
    /// Its bytes. At least one.
    pub bytes: &'a [u8],
}

/// The lines of a text that aren't empty, in order. A line ends at LF, or at CR and LF; bytes behind the last LF are a
/// line too. A contract sees the lines that are left.
#[derive(Debug, Drop)]
pub struct TextLines<'a> {
    rest: &'a [u8],
    // The number of the first line of `rest`.
    number: u64,
}

impl<'a> Model for TextLines<'a> {
    ghost use Rattle.std.specs.Prelude.{List, ◌+◌, ◌<◌, ◌^◌, length};
    ghost use Rattle.line_rules.specs.Lines.{NumberedLine, lines, numbered_lines};

    ghost Value = { List NumberedLine };

    ghost view = { λ it. numbered_lines it.number (lines it.rest.now) };

    ghost invariant = { λ it. it.number + length it.rest.now < 2 ^ 64 };
}

impl<'a> TextLines<'a> {
    /// The lines of `text`.
    pub fn of(text: &'a [u8]) -> Self
        ensures { result ≡ lines_of text.now }
    {
        TextLines {
            rest: text,
            number: 1,
        }
    }

    /// The lines of `text`, the first of which has this number.
    pub fn numbered_from(number: u64, text: &'a [u8]) -> Self
        requires { number + length text.now < 2 ^ 64 }
        ensures { result ≡ numbered_lines number (lines text.now) }
    {
        TextLines { rest: text, number }
    }
}

impl<'a> Iterator for TextLines<'a> {
    ghost use Rattle.std.specs.Iterator.{YieldsFirstBy, item_count};
    ghost use Rattle.line_text.specs.Views.{line_of};

    type Item = TextLine<'a>;

    ghost next_gives = { YieldsFirstBy line_of (λ rest. rest) };

    ghost remaining = { item_count (λ rest. rest) };

    fn next(&mut self) -> Option<TextLine<'a>> {
        while !self.rest.is_empty() {
            let (bytes, rest) = cut(self.rest);
            let number = self.number;
            self.rest = rest;
            self.number += 1;
            if !bytes.is_empty() {
                return Some(TextLine { number, bytes });
            }
        }
        None
    }
}

/// How many lines of `text` aren't empty.
pub fn count(text: &[u8]) -> u64
    ensures { result ≡ length (lines_of text.now) }
{
    TextLines::of(text).count() as u64
}
