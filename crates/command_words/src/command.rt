//! The words of the command line.

ghost use Rattle.std.specs.Prelude.{◌≡◌, ◌≢◌, ℕ, [], ◌∷◌, map, MatchOption};
ghost use Rattle.std.specs.Fmt.{decimal};
ghost use Rattle.std.specs.String.{string_bytes};
ghost use Rattle.sketch_rules.specs.Sketches.{IsCapacity};
ghost use Rattle.command_words.specs.Words.{HasForm, IsFormless, IsGeneratorNumber};

use crate::number::decimal_of;
use crate::salt::salt_of;
use protocol_text_rules::GENERATOR_LIMIT;
use sketch_rules::MAX_CAPACITY;

/// What the command line asks for.
#[derive(Clone, Copy, Debug, PartialEq, Eq)]
pub enum Command {
    /// Write the sketch of the elements of the input. The capacity is from 1 to 4096.
    Make(usize),
    /// Write the sum of the two sketches of the input.
    Merge,
    /// Write the set that has the sketch of the input.
    Decode,
    /// Write each id of the input with its short id under the key of the two salts.
    Ids { salt: u64, other: u64 },
    /// Write the messages of the frames of the input, a line each.
    Show,
    /// Write the frames of the messages that the lines of the input show.
    Pack,
    /// Write what becomes of two nodes to which the events of the script of the input happen.
    Sim,
    /// Write what becomes of two nodes to which the events of the script of a number happen. The number is from 1 to 10000.
    Gen(u64),
}

/// The capacity of a sketch that the text spells in decimal digits.
#[tactic(auto, using(std::proofs::lemmas::Fmt::decimal_injective))]
fn capacity_of(text: &str) -> Option<usize>
    ensures { MatchOption result ((n : ℕ) → IsCapacity n → text.now ≢ decimal n) (λ n. IsCapacity n × (text.now ≡ decimal n)) }
{
    let capacity = usize::try_from(decimal_of(text)?).ok()?;
    (1..=MAX_CAPACITY).contains(&capacity).then_some(capacity)
}

/// The number of a generated script that the text spells in decimal digits.
#[tactic(auto, using(std::proofs::lemmas::Fmt::decimal_injective))]
fn generator_number_of(text: &str) -> Option<u64>
    ensures { MatchOption result ((n : ℕ) → IsGeneratorNumber n → text.now ≢ decimal n) (λ n. IsGeneratorNumber n × (text.now ≡ decimal n)) }
{
    let number = decimal_of(text)?;
    (1..=GENERATOR_LIMIT).contains(&number).then_some(number)
}

/// The command of a name alone.
fn without_argument(name: &str) -> Option<Command>
    ensures { MatchOption result (IsFormless (name.now ∷ [])) (HasForm (name.now ∷ [])) }
{
    match name {
        "merge" => Some(Command::Merge),
        "decode" => Some(Command::Decode),
        "show" => Some(Command::Show),
        "pack" => Some(Command::Pack),
        "sim" => Some(Command::Sim),
        _ => None,
    }
}

/// The command of a name and one argument.
fn with_argument(name: &str, argument: &str) -> Option<Command>
    ensures { MatchOption result (IsFormless (name.now ∷ argument.now ∷ [])) (HasForm (name.now ∷ argument.now ∷ [])) }
{
    match name {
        "make" => Some(Command::Make(capacity_of(argument)?)),
        "gen" => Some(Command::Gen(generator_number_of(argument)?)),
        _ => None,
    }
}

/// The command of a name and two arguments.
fn with_arguments(name: &str, first: &str, second: &str) -> Option<Command>
    ensures { MatchOption result (IsFormless (name.now ∷ first.now ∷ second.now ∷ [])) (HasForm (name.now ∷ first.now ∷ second.now ∷ [])) }
{
    match name {
        "ids" => Some(Command::Ids {
            salt: salt_of(first)?,
            other: salt_of(second)?,
        }),
        _ => None,
    }
}

/// The command that the words ask for, where they have the form of one.
pub fn command_of(words: &[String]) -> Option<Command>
    ensures { MatchOption result (IsFormless (map string_bytes words.now)) (HasForm (map string_bytes words.now)) }
{
    match words {
        [name] => without_argument(name.as_str()),
        [name, argument] => with_argument(name.as_str(), argument.as_str()),
        [name, first, second] => with_arguments(name.as_str(), first.as_str(), second.as_str()),
        _ => None,
    }
}
