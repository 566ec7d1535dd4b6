//! The program from its arguments to its exit code.

ghost use Rattle.std.specs.Prelude.{◌≡◌, ◌≢◌, [], IfOk, IfErr, drop, false, map};
ghost use Rattle.std.specs.String.{string_bytes};
ghost use Rattle.std.specs.IoError.{error_kind};
ghost use Rattle.line_rules.specs.Lines.{line};
ghost use Rattle.sketch_text_rules.specs.Faults.{out_of_memory_text};
ghost use Rattle.text_commands.specs.Outside.{observation_of};
ghost use Rattle.text_commands.specs.Ends.{IsEnding, IsWritten, IsAnswer, IsCodeOf};
ghost use Rattle.erlay_cli.specs.Exchanges.{Exchange, HasExchange, HasNoExchange};
ghost use Rattle.erlay_cli.specs.Runs.{IsExchangeEnding};
ghost use Rattle.erlay_cli.specs.Sights.{shelf_sight, wire_sight};

use crate::chance::Chance;
use crate::top::run;
use erlay_base::{Shelf, Sink, Source, Wire};
use std::alloc::Global;
use std::io::{self, ErrorKind};
use text_commands::{Status, stopped};

/// Runs the program, and answers its exit code. The first argument is the program's own name, and the words stand
/// behind it. Where an argument isn't text the program runs with no words, so it writes `usage`; where memory ran out
/// for the arguments, it says so.
pub fn exit_code<I: Source, O: Sink, W: Wire, S: Shelf>(
    alloc: Global,
    arguments: io::Result<Vec<String>>,
    chance: Chance,
    input: &mut I,
    output: &mut O,
    wire: &mut W,
    shelf: &mut S,
) -> u8
    requires { W.has_ended wire.old ≡ false }
    ensures command { IfOk arguments (λ list. HasNoExchange (map string_bytes (drop 1 list.items)) → IsCodeOf (IsEnding
        (IsAnswer (map string_bytes (drop 1 list.items)) (observation_of I.left I.faults input.old) (observation_of I.left I.faults input.new))
        (observation_of O.written O.faults output.old) (observation_of O.written O.faults output.new)) result) }
    ensures exchange { IfOk arguments (λ list. (x : Exchange) → HasExchange (map string_bytes (drop 1 list.items)) x → IsCodeOf (IsExchangeEnding x chance
        (wire_sight W.link W.has_ended W.faults wire.old) (wire_sight W.link W.has_ended W.faults wire.new)
        (shelf_sight S.told S.faults shelf.old) (shelf_sight S.told S.faults shelf.new)
        (observation_of O.written O.faults output.old) (observation_of O.written O.faults output.new)) result) }
    ensures no_text { IfErr arguments (λ error. error_kind error ≢ ErrorKind.OutOfMemory → IsCodeOf (IsEnding
        (IsAnswer [] (observation_of I.left I.faults input.old) (observation_of I.left I.faults input.new))
        (observation_of O.written O.faults output.old) (observation_of O.written O.faults output.new)) result) }
    ensures no_memory { IfErr arguments (λ error. error_kind error ≡ ErrorKind.OutOfMemory → IsCodeOf
        (IsWritten Status.OutOfMemory (line out_of_memory_text) (observation_of O.written O.faults output.old) (observation_of O.written O.faults output.new)) result) }
    ensures untouched { IfErr arguments (λ error. error_kind error ≡ ErrorKind.OutOfMemory → observation_of I.left I.faults input.new ≡ observation_of I.left I.faults input.old) }
{
    match arguments {
        Ok(arguments) => {
            let words = words_of(arguments.as_slice());
            run(alloc, words, chance, input, output, wire, shelf).code()
        }
        Err(error) if error.kind() == ErrorKind::OutOfMemory => stopped(output).code(),
        Err(_) => run(alloc, &[], chance, input, output, wire, shelf).code(),
    }
}

/// The arguments behind the program's own name.
fn words_of(arguments: &[String]) -> &[String]
    ensures { result.now ≡ drop 1 arguments.now }
{
    match arguments {
        [_, words @ ..] => words,
        [] => &[],
    }
}
