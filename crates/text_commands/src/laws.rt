//! What the commands make of each other's answers.

ghost use Rattle.std.specs.Prelude.{◌≡◌, ℕ, ◌≤◌, List, ◌++◌, length};
ghost use Rattle.line_rules.specs.Lines.{line};
ghost use Rattle.sketch_rules.specs.Sets.{difference};
ghost use Rattle.sketch_rules.specs.Sketches.{IsCapacity, digits_of, sketch_sum, sketch_of};
ghost use Rattle.sketch_text_rules.specs.Elements.{IsSet, set_text};
ghost use Rattle.sketch_text_rules.specs.Limits.{input_limit};
ghost use Rattle.text_commands.specs.Answers.{answer_to};

use crate::status::Status;
use command_words::Command;

/// Where two sets differ in no more elements than a sketch has sums, `decode` answers the elements that they differ in:
/// to the line of the sum of their sketches, and, where the texts of the sets are within the limit of an input, to what
/// `merge` answers to what `make` answers to these. It does nothing when it runs: its contract is the theorem.
pub fn differences_are_decoded()
    ensures sum { (xs ys : List ℕ) (c : ℕ) → IsSet xs → IsSet ys → IsCapacity c → length (difference xs ys) ≤ c
        → answer_to Command.Decode (line (digits_of (sketch_sum (sketch_of xs c) (sketch_of ys c)))) ≡ record { status = Status.Ok; text = set_text (difference xs ys) } }
    ensures texts { (xs ys : List ℕ) (c : ℕ) → IsSet xs → IsSet ys → IsCapacity c → length (difference xs ys) ≤ c
        → length (set_text xs) ≤ input_limit → length (set_text ys) ≤ input_limit
        → let sketches = (answer_to (Command.Make c) (set_text xs)).text ++ (answer_to (Command.Make c) (set_text ys)).text in
        answer_to Command.Decode (answer_to Command.Merge sketches).text ≡ record { status = Status.Ok; text = set_text (difference xs ys) } }
{}
