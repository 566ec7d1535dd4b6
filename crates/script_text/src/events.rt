//! Lists of events that grow.

ghost use Rattle.std.specs.Prelude.{◌≡◌, ◌∷◌, ◌++◌, [], OnOk};
ghost use Rattle.pair_rules.specs.World.{deliveries};

use base_types::OutOfMemory;
use pair_rules::Event;

/// Puts an event behind what is there.
pub(crate) fn push_event(events: &mut Vec<Event>, event: Event) -> Result<(), OutOfMemory>
    ensures { OnOk result (events.new.items ≡ events.old.items ++ event ∷ []) }
{
    events.push(event)?;
    Ok(())
}

/// How often all that waits is delivered to drain both wires.
const DRAIN_ROUNDS: u64 = 16;

/// Puts the deliveries that drain both wires behind what is there.
pub(crate) fn push_deliveries(events: &mut Vec<Event>) -> Result<(), OutOfMemory>
    ensures { OnOk result (events.new.items ≡ events.old.items ++ deliveries 16) }
{
    for _ in 0..DRAIN_ROUNDS {
        push_event(events, Event::DeliverAb(u64::MAX))?;
        push_event(events, Event::DeliverBa(u64::MAX))?;
    }
    Ok(())
}
