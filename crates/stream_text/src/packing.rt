//! The frames of the messages that lines show.

ghost use Rattle.std.specs.Prelude.{◌≡◌, ◌++◌, OnOk};
ghost use Rattle.line_text.specs.Gives.{IsOutcome};
ghost use Rattle.wire_rules.specs.Layout.{message_bytes};
ghost use Rattle.wire_rules.specs.Limits.{IsMessage};
ghost use Rattle.protocol_text_rules.specs.Works.{pack_bytes, shown_in, with_text};

use base_types::{Kind, OutOfMemory, TextFault};
use line_text::{ReadStop, TextLines};
use p2p_frame::write_frame;
use protocol_text_rules::MAIN_MAGIC;
use recon_messages::encode;
use shown_reading::{ShownFault, read_shown};
use std::alloc::Global;
use wire_rules::Message;

/// The frames, in a main network's stream, of the messages that the lines of the text show, in order. The first line that
/// is the shown line of no message is named.
pub fn packed_frames(alloc: Global, text: &[u8]) -> Result<Vec<u8>, ReadStop>
    ensures { IsOutcome (λ frames. frames.items) result (with_text pack_bytes (shown_in text.now)) }
{
    let mut frames = Vec::new(alloc);
    for line in TextLines::of(text) {
        let message = match read_shown(alloc, line.bytes) {
            Ok(message) => message,
            Err(ShownFault::Form) => {
                return Err(ReadStop::Fault(TextFault {
                    place: line.number,
                    kind: Kind::Form,
                }));
            }
            Err(ShownFault::OutOfMemory) => return Err(ReadStop::OutOfMemory),
        };
        let Ok(()) = put_frame(alloc, &mut frames, message) else {
            return Err(ReadStop::OutOfMemory);
        };
    }
    Ok(frames)
}

/// Puts the frame of a message behind what is there.
fn put_frame(alloc: Global, frames: &mut Vec<u8>, message: Message) -> Result<(), OutOfMemory>
    requires { IsMessage message }
    ensures { OnOk result (frames.new.items ≡ frames.old.items ++ message_bytes MAIN_MAGIC message) }
{
    let frame = encode(alloc, &message)?;
    write_frame(MAIN_MAGIC, &frame, frames)
}
