//! The top call.

ghost use Rattle.std.specs.Prelude.{◌≡◌, ◌≢◌, ◌⊎◌, ◌≤◌, ℕ, List, false, true, map};
ghost use Rattle.std.specs.String.{string_bytes};
ghost use Rattle.wire_rules.specs.declared.phase.Phase.{Phase};
ghost use Rattle.node_rules.specs.declared.end.End.{End};
ghost use Rattle.erlay_base.specs.Causes.{HasRisen};
ghost use Rattle.command_words.specs.Words.{HasForm};
ghost use Rattle.command_words.specs.declared.command.Command.{Command};
ghost use Rattle.text_commands.specs.Answers.{HasSettled, answer_to, is_reader};
ghost use Rattle.text_commands.specs.Ends.{IsAnswer, IsAnswerTo, IsEnding, IsSound, IsTold};
ghost use Rattle.text_commands.specs.Outside.{observation_of};
ghost use Rattle.erlay_cli.specs.Exchanges.{AreFormless, Exchange, HasExchange, HasNoExchange};
ghost use Rattle.erlay_cli.specs.Runs.{HasSoundFile, IsExchangeEnding, IsSessionStatus};
ghost use Rattle.erlay_cli.specs.Sights.{shelf_sight, wire_sight};

use crate::chance::Chance;
use crate::exchange::exchange_status;
use crate::words::exchange_of;
use erlay_base::{Shelf, Sink, Source, Wire};
use std::alloc::Global;
use text_commands::Status;

/// Does what the words of the command line ask for, and writes what came of it: works on the input, or exchanges transactions
/// with another node over the wire, with a pool of the shelf.
pub fn run<I: Source, O: Sink, W: Wire, S: Shelf>(
    alloc: Global,
    words: &[String],
    chance: Chance,
    input: &mut I,
    output: &mut O,
    wire: &mut W,
    shelf: &mut S,
) -> Status
    requires { W.has_ended wire.old ≡ false }

    // Words that ask for no exchange: a command over its input, which leaves the wire and the shelf as they were.
    ensures command { HasNoExchange (map string_bytes words.now) → IsEnding
        (IsAnswer (map string_bytes words.now) (observation_of I.left I.faults input.old) (observation_of I.left I.faults input.new))
        (observation_of O.written O.faults output.old) (observation_of O.written O.faults output.new) result }
    ensures command_alone { HasNoExchange (map string_bytes words.now) → (wire.new ≡ wire.old) × (shelf.new ≡ shelf.old) }

    // Words that ask for an exchange: over the wire and the shelf, which leaves the input as it was.
    ensures exchange { (x : Exchange) → HasExchange (map string_bytes words.now) x → IsExchangeEnding x chance
        (wire_sight W.link W.has_ended W.faults wire.old) (wire_sight W.link W.has_ended W.faults wire.new)
        (shelf_sight S.told S.faults shelf.old) (shelf_sight S.told S.faults shelf.new)
        (observation_of O.written O.faults output.old) (observation_of O.written O.faults output.new) result }
    ensures exchange_alone { (x : Exchange) → HasExchange (map string_bytes words.now) x → input.new ≡ input.old }

    // Where the input tells the bytes that the command reads, they alone lead to the text and the status.
    ensures told { (c : Command) (text : List ℕ) → HasForm (map string_bytes words.now) c → IsTold c (I.left input.old) text
        → IsEnding (IsAnswerTo c text) (observation_of O.written O.faults output.old) (observation_of O.written O.faults output.new) result }

    // A command that reads nothing leaves the input as it was.
    ensures unread { (c : Command) → HasForm (map string_bytes words.now) c → is_reader c ≡ false → input.new ≡ input.old }

    // Where two nodes were run, and what is told of them is that they are drained and neither has ended, every round is over on
    // both sides and has left both its snapshots in both pools where it fits, and the reports of both sides agree.
    ensures settled { (c : Command) (text : List ℕ) → HasForm (map string_bytes words.now) c → IsTold c (I.left input.old) text
        → (result ≡ Status.Ok) ⊎ ((e : End) × (result ≡ Status.Refused e)) → HasSettled c text }

    // Usage comes exactly where the words have no form; then all is as it was.
    ensures usage { result ≡ Status.Usage → AreFormless (map string_bytes words.now) }
    ensures formless { AreFormless (map string_bytes words.now) → (result ≡ Status.Usage) ⊎ (result ≡ Status.WriteFault) }
    ensures untouched { AreFormless (map string_bytes words.now) → input.new ≡ input.old }

    // A fault of the outside comes exactly where its count rose, and no count falls. A failed write hides another fault.
    ensures read_fault { result ≡ Status.ReadFault → HasRisen (I.faults input.old) (I.faults input.new) }
    ensures no_read_fault { result ≢ Status.ReadFault → result ≢ Status.WriteFault → I.faults input.new ≡ I.faults input.old }
    ensures write_fault { result ≡ Status.WriteFault → HasRisen (O.faults output.old) (O.faults output.new) }
    ensures no_write_fault { result ≢ Status.WriteFault → O.faults output.new ≡ O.faults output.old }
    ensures link_fault { result ≡ Status.LinkFault → HasRisen (W.faults wire.old) (W.faults wire.new) }
    ensures no_link_fault { result ≢ Status.LinkFault → result ≢ Status.WriteFault → W.faults wire.new ≡ W.faults wire.old }
    ensures shelf_fault { result ≡ Status.ShelfFault → HasRisen (S.faults shelf.old) (S.faults shelf.new) }
    ensures no_shelf_fault { result ≢ Status.ShelfFault → result ≢ Status.WriteFault → S.faults shelf.new ≡ S.faults shelf.old }
    ensures later { (I.faults input.old ≤ I.faults input.new) × (O.faults output.old ≤ O.faults output.new) × (W.faults wire.old ≤ W.faults wire.new) × (S.faults shelf.old ≤ S.faults shelf.new) }

    // A session was cut short exactly where the wire's input has ended.
    ensures truncated { (p : Phase) → result ≡ Status.Truncated p → W.has_ended wire.new ≡ true }

    // With a sound input and no fault of the outside, nothing but want of memory keeps the command from its work.
    ensures complete { (c : Command) (text : List ℕ) → HasForm (map string_bytes words.now) c → IsTold c (I.left input.old) text → IsSound c text
        → ¬ HasRisen (I.faults input.old) (I.faults input.new) → ¬ HasRisen (O.faults output.old) (O.faults output.new)
        → (result ≡ (answer_to c text).status) ⊎ (result ≡ Status.OutOfMemory) }

    // With a sound pool file and no fault of the outside, nothing but want of memory keeps it from the status of its session.
    ensures complete_exchange { (x : Exchange) → HasExchange (map string_bytes words.now) x → HasSoundFile (S.told shelf.old) x.pool
        → ¬ HasRisen (O.faults output.old) (O.faults output.new) → ¬ HasRisen (W.faults wire.old) (W.faults wire.new) → ¬ HasRisen (S.faults shelf.old) (S.faults shelf.new)
        → IsSessionStatus x chance (wire_sight W.link W.has_ended W.faults wire.old) (wire_sight W.link W.has_ended W.faults wire.new)
        (shelf_sight S.told S.faults shelf.old) (shelf_sight S.told S.faults shelf.new) result ⊎ (result ≡ Status.OutOfMemory) }
{
    match exchange_of(words) {
        Some(asked) => exchange_status(alloc, &asked, chance, output, wire, shelf),
        None => text_commands::run(alloc, words, input, output),
    }
}
