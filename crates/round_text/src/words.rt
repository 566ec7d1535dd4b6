//! The words of phases, endings and sides.

ghost use Rattle.std.specs.Prelude.{◌≡◌};
ghost use Rattle.protocol_text_rules.specs.Ends as ends;

use pair_rules::Side;
use pool_rules::Ending;
use wire_rules::Phase;

/// The word of a phase.
#[tactic(auto, unfolding(protocol_text_rules::specs::Ends::phase_text))]
pub fn phase_text(phase: Phase) -> &'static [u8]
    ensures { result.now ≡ ends.phase_text phase }
{
    match phase {
        Phase::Greeting => b"greeting",
        Phase::Greeted => b"greeted",
        Phase::Idle => b"idle",
        Phase::Waiting => b"waiting",
        Phase::WaitingExt => b"waiting-ext",
        Phase::WaitingExt2 => b"waiting-ext2",
        Phase::Barrier => b"barrier",
        Phase::Fetching => b"fetching",
        Phase::Sent => b"sent",
        Phase::SentExt => b"sent-ext",
        Phase::SentExt2 => b"sent-ext2",
    }
}

/// The word of a round's ending.
#[tactic(auto, unfolding(protocol_text_rules::specs::Ends::ending_text))]
pub fn ending_text(ending: Ending) -> &'static [u8]
    ensures { result.now ≡ ends.ending_text ending }
{
    match ending {
        Ending::First => b"first",
        Ending::Extension => b"extension",
        Ending::Extension2 => b"extension2",
        Ending::Fallback => b"fallback",
    }
}

/// The letter of a side.
pub fn side_text(side: Side) -> &'static [u8]
    ensures { result.now ≡ ends.side_text side }
{
    match side {
        Side::A => b"a",
        Side::B => b"b",
    }
}
