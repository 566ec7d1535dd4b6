//! A command over its input and its output.

ghost use Rattle.std.specs.Prelude.{◌≡◌, ◌≢◌, ◌⊎◌, ◌≤◌, ℕ, List, false, IfOk, IfErr, map};
ghost use Rattle.std.specs.String.{string_bytes};
ghost use Rattle.erlay_base.specs.Causes.{HasRisen};
ghost use Rattle.line_rules.specs.Lines.{line};
ghost use Rattle.sketch_text_rules.specs.Faults.{out_of_memory_text};
ghost use Rattle.node_rules.specs.declared.end.End.{End};
ghost use Rattle.command_words.specs.Words.{HasForm, IsFormless};
ghost use Rattle.text_commands.specs.Outside.{observation_of};
ghost use Rattle.text_commands.specs.Answers.{HasSettled, IsReportOf, answer_to, answer_within_limit};
ghost use Rattle.text_commands.specs.Answers as answers;
ghost use Rattle.text_commands.specs.Ends.{IsEnding, IsWritten, IsAnswer, IsAnswerTo, IsSound, IsTold};
ghost use Rattle.text_commands.specs.Stops.{status_of, text_of};
ghost use Rattle.command_words.specs.declared.command.Command.{Command};

use crate::decode::decode;
use crate::ids::ids;
use crate::make::make;
use crate::merge::merge;
use crate::pack::pack;
use crate::report::{Report, Stop};
use crate::show::show;
use crate::sim::{generated, sim};
use crate::status::Status;
use command_words::{Command, command_of};
use erlay_base::{ReadEnd, Sink, Source, read_all, write_all};
use sketch_text_rules::INPUT_LIMIT;
use std::alloc::Global;

/// Does what the words of the command line ask for, reads the input if the command reads it, and writes one text.
pub fn run<I: Source, O: Sink>(
    alloc: Global,
    words: &[String],
    input: &mut I,
    output: &mut O,
) -> Status
    ensures ends { IsEnding
        (IsAnswer (map string_bytes words.now) (observation_of I.left I.faults input.old) (observation_of I.left I.faults input.new))
        (observation_of O.written O.faults output.old) (observation_of O.written O.faults output.new) result }

    // Where the input tells the bytes that the command reads, they alone lead to the text and the status.
    ensures told { (c : Command) (text : List ℕ) → HasForm (map string_bytes words.now) c → IsTold c (I.left input.old) text
        → IsEnding (IsAnswerTo c text) (observation_of O.written O.faults output.old) (observation_of O.written O.faults output.new) result }

    // A command that reads nothing leaves the input as it was.
    ensures unread { (c : Command) → HasForm (map string_bytes words.now) c → answers.is_reader c ≡ false → input.new ≡ input.old }

    // Where two nodes were run, and what is told of them is that they are drained and neither has ended, every round is over on
    // both sides and has left both its snapshots in both pools where it fits, and the reports of both sides agree.
    ensures settled { (c : Command) (text : List ℕ) → HasForm (map string_bytes words.now) c → IsTold c (I.left input.old) text
        → (result ≡ Status.Ok) ⊎ ((e : End) × (result ≡ Status.Refused e)) → HasSettled c text }

    // Usage comes exactly where the words have no form; then the input is as it was.
    ensures usage { result ≡ Status.Usage → IsFormless (map string_bytes words.now) }
    ensures formless { IsFormless (map string_bytes words.now) → (result ≡ Status.Usage) ⊎ (result ≡ Status.WriteFault) }
    ensures untouched { IsFormless (map string_bytes words.now) → input.new ≡ input.old }

    // A fault of the outside comes exactly where its count rose, and no count falls. A failed write hides a failed read.
    ensures read_fault { result ≡ Status.ReadFault → HasRisen (I.faults input.old) (I.faults input.new) }
    ensures no_read_fault { result ≢ Status.ReadFault → result ≢ Status.WriteFault → I.faults input.new ≡ I.faults input.old }
    ensures write_fault { result ≡ Status.WriteFault → HasRisen (O.faults output.old) (O.faults output.new) }
    ensures no_write_fault { result ≢ Status.WriteFault → O.faults output.new ≡ O.faults output.old }
    ensures later { (I.faults input.old ≤ I.faults input.new) × (O.faults output.old ≤ O.faults output.new) }

    // With a sound input and no fault of the outside, nothing but want of memory keeps the command from its work.
    ensures complete { (c : Command) (text : List ℕ) → HasForm (map string_bytes words.now) c → IsTold c (I.left input.old) text → IsSound c text
        → ¬ HasRisen (I.faults input.old) (I.faults input.new) → ¬ HasRisen (O.faults output.old) (O.faults output.new)
        → (result ≡ (answer_to c text).status) ⊎ (result ≡ Status.OutOfMemory) }
{
    match answer(alloc, words, input) {
        Ok(report) => finish(output, report.status, report.text.as_slice()),
        Err(stop) => finish(output, stop.status(), stop.text()),
    }
}

/// Ends a run whose words could not be taken in for want of memory.
pub fn stopped<O: Sink>(output: &mut O) -> Status
    ensures finishes { IsWritten Status.OutOfMemory (line out_of_memory_text) (observation_of O.written O.faults output.old) (observation_of O.written O.faults output.new) result }
    ensures later { O.faults output.old ≤ O.faults output.new }
{
    finish(output, Stop::OutOfMemory.status(), Stop::OutOfMemory.text())
}

/// The answer to the words, before it is written.
fn answer<I: Source>(alloc: Global, words: &[String], input: &mut I) -> Result<Report, Stop>
    ensures ok { IfOk result (λ report. IsAnswer (map string_bytes words.now) (observation_of I.left I.faults input.old) (observation_of I.left I.faults input.new) report.status report.text.items) }
    ensures err { IfErr result (λ stop. IsAnswer (map string_bytes words.now) (observation_of I.left I.faults input.old) (observation_of I.left I.faults input.new) (status_of stop) (text_of stop)) }
    ensures settled { IfOk result (λ report. (c : Command) (text : List ℕ) → HasForm (map string_bytes words.now) c → IsTold c (I.left input.old) text → HasSettled c text) }
    ensures unread { (c : Command) → HasForm (map string_bytes words.now) c → answers.is_reader c ≡ false → input.new ≡ input.old }
    ensures untouched { IsFormless (map string_bytes words.now) → input.new ≡ input.old }
    ensures later { I.faults input.old ≤ I.faults input.new }
{
    let Some(command) = command_of(words) else {
        return Err(Stop::Usage);
    };
    if !is_reader(command) {
        return work(alloc, command, &[]);
    }
    match read_all(alloc, input, INPUT_LIMIT) {
        Ok(bytes) => work(alloc, command, bytes.as_slice()),
        Err(ReadEnd::Failed) => Err(Stop::ReadFault),
        Err(ReadEnd::TooLong) => Err(Stop::TooLong),
        Err(ReadEnd::OutOfMemory) => Err(Stop::OutOfMemory),
    }
}

/// Whether the command reads its input.
#[tactic(auto, unfolding(crate::specs::Answers::is_reader))]
fn is_reader(command: Command) -> bool
    ensures { result ≡ answers.is_reader command }
{
    !matches!(command, Command::Gen(_))
}

/// Does the command's work on an input within the limit.
fn work(alloc: Global, command: Command, input: &[u8]) -> Result<Report, Stop>
    requires { (words : List (List ℕ)) × HasForm words command }
    ensures ok { IfOk result (λ report. IsReportOf report (answer_within_limit command input.now)) }
    ensures settled { IfOk result (λ report. HasSettled command input.now) }
    ensures err { IfErr result (λ stop. stop ≡ Stop.OutOfMemory) }
{
    let answered = match command {
        Command::Make(capacity) => make(alloc, capacity, input),
        Command::Merge => merge(alloc, input),
        Command::Decode => decode(alloc, input),
        Command::Ids { salt, other } => ids(alloc, salt, other, input),
        Command::Show => show(alloc, input),
        Command::Pack => pack(alloc, input),
        Command::Sim => sim(alloc, input),
        Command::Gen(number) => generated(alloc, number),
    };
    answered.map_err(|_| Stop::OutOfMemory)
}

/// Writes the text. The status is `end`, unless a write fails.
pub fn finish<O: Sink>(output: &mut O, end: Status, text: &[u8]) -> Status
    ensures finishes { IsWritten end text.now (observation_of O.written O.faults output.old) (observation_of O.written O.faults output.new) result }
    ensures no_write_fault { result ≢ Status.WriteFault → O.faults output.new ≡ O.faults output.old }
    ensures later { O.faults output.old ≤ O.faults output.new }
{
    match write_all(output, text) {
        Ok(()) => end,
        Err(_) => Status::WriteFault,
    }
}
