//! Messages from lines.

ghost use Rattle.std.specs.Prelude.{◌≡◌, ◌&&◌, IfOk, bytes_eq};
ghost use Rattle.wire_rules.specs.Limits as limits;
ghost use Rattle.wire_rules.specs.Shown.{message_text};
ghost use Rattle.wire_rules.specs.ShownReading.{shown_message};
ghost use Rattle.shown_reading.specs.Reads.{IsShownMessage};

use crate::fault::ShownFault;
use crate::messages::message_in;
use crate::words::Words;
use base_types::OutOfMemory;
use recon_messages::is_within_limits;
use shown_messages::show;
use std::alloc::Global;
use wire_rules::Message;

/// The message whose shown line the line is. The line has no line end. It is read as the only message that its words may
/// stand for, and refused where that message isn't shown as this very line.
pub fn read_shown(alloc: Global, line: &[u8]) -> Result<Message, ShownFault>
    ensures { IsShownMessage (shown_message line.now) result }
{
    let message = message_in(alloc, Words::of(line))?;
    let is_same = is_shown_as(alloc, &message, line)?;
    if is_same {
        Ok(message)
    } else {
        Err(ShownFault::Form)
    }
}

/// Whether a message may be sent, and is shown as this line.
fn is_shown_as(alloc: Global, message: &Message, line: &[u8]) -> Result<bool, OutOfMemory>
    ensures { IfOk result (λ same. same ≡ (limits.is_within_limits message.now && bytes_eq (message_text message.now) line.now)) }
{
    if !is_within_limits(message) {
        return Ok(false);
    }
    let shown = show(alloc, message)?;
    Ok(shown.as_slice() == line)
}
