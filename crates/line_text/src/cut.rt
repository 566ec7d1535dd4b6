//! A text cut behind its first line.

ghost use Rattle.std.specs.Prelude.{◌≡◌, ◌∷◌, ◌<◌, length};
ghost use Rattle.line_rules.specs.Lines.{lines};
ghost use Rattle.line_text.specs.Cuts.{without_carriage_return};

/// The line without the CR that it may end in.
fn trimmed(line: &[u8]) -> &[u8]
    ensures { result.now ≡ without_carriage_return line.now }
{
    let Some((last, front)) = line.split_last() else {
        return line;
    };
    if *last == b'\r' { front } else { line }
}

/// The first line of a text, without its end, and the text behind it.
pub(crate) fn cut(text: &[u8]) -> (&[u8], &[u8])
    requires { 0 < length text.now }
    ensures first { lines text.now ≡ result.0.now ∷ lines result.1.now }
    ensures shorter { length result.1.now < length text.now }
{
    match memchr::memchr(b'\n', text) {
        Some(end) => (trimmed(&text[..end]), &text[end + 1..]),
        None => (text, &[]),
    }
}
