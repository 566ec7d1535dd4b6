//! The definitions of what the program reads and writes as text, in `specs/`, a law of them, and their constants.
#![tactic(auto)]

ghost use Rattle.std.specs.Prelude.{◌≡◌, ℕ, List, Ok};
ghost use Rattle.sketch_text_rules.specs.Elements.{IsSet, set_in, set_text};

mod limits;

pub use limits::INPUT_LIMIT;

/// The text of a set is read as the set. It does nothing when it runs: its contract is the theorem.
pub fn written_sets_are_read()
    ensures { (es : List ℕ) → IsSet es → set_in (set_text es) ≡ Ok es }
{}
