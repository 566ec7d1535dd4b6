//! The events of a script.

ghost use Rattle.std.specs.Prelude.{[], IfOk};
ghost use Rattle.line_rules.specs.Reading.{line_fold};
ghost use Rattle.line_text.specs.Gives.{IsOutcome};
ghost use Rattle.pair_rules.specs.World.{IsScript};
ghost use Rattle.protocol_text_rules.specs.Scripts.{script_in, script_step};

use crate::line::push_line;
use base_types::{Kind, TextFault};
use line_text::{ReadStop, TextLines, count};
use pair_rules::Event;
use protocol_text_rules::EVENT_LIMIT;
use std::alloc::Global;

/// The events of a script, in order, or its first fault. Too many lines are a fault before any of them is read; its place
/// is how many there are.
pub fn script_of(alloc: Global, text: &[u8]) -> Result<Vec<Event>, ReadStop>
    ensures read { IsOutcome (λ events. events.items) result (script_in text.now) }
    ensures sound { IfOk result (λ events. IsScript events.items) }
{
    let lines = count(text);
    if (EVENT_LIMIT as u64) < lines {
        return Err(ReadStop::Fault(TextFault {
            place: lines,
            kind: Kind::TooMany,
        }));
    }
    events_of(alloc, TextLines::of(text))
}

/// The events of lines.
fn events_of(alloc: Global, lines: TextLines<'_>) -> Result<Vec<Event>, ReadStop>
    ensures { IsOutcome (λ events. events.items) result (line_fold script_step [] lines.entry) }
{
    let mut events = Vec::new(alloc);
    for line in lines {
        match push_line(alloc, &mut events, line.bytes) {
            Ok(()) => {}
            Err(stop) => return Err(stop.at(line.number)),
        }
    }
    Ok(events)
}
