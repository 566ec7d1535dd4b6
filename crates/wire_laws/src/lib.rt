//! Laws of frames and messages, in `proofs/`, each stated by a function.
#![tactic(auto)]

ghost use Rattle.std.specs.Prelude.{◌≡◌, Ok};
ghost use Rattle.wire_rules.specs.Layout.{frame_of};
ghost use Rattle.wire_rules.specs.Limits.{IsFrame, IsMessage};
ghost use Rattle.wire_rules.specs.Reading.{message_of};
ghost use Rattle.wire_rules.specs.declared.frame.Frame.{Frame};
ghost use Rattle.wire_rules.specs.declared.message.Message.{Message};
ghost use Rattle.wire_laws.specs.Readings.{IsFrameOf};

/// A message that may be sent has a frame that may be sent, is what this frame says, and no other message has this frame.
/// It does nothing when it runs: its contract is the theorem.
pub fn messages_are_read_back()
    ensures sound { (m : Message) → IsMessage m → IsFrame (frame_of m) }
    ensures said { (m : Message) → IsMessage m → message_of (frame_of m) ≡ Ok m }
    ensures one { (m n : Message) → IsMessage m → IsMessage n → frame_of m ≡ frame_of n → m ≡ n }
{}

/// What a frame says, which may be sent, is a message that may be sent, and the frame is this message's. So each such frame
/// says one message or has one fault. It does nothing when it runs: its contract is the theorem.
pub fn frames_say_messages()
    ensures { (f : Frame) (m : Message) → IsFrame f → message_of f ≡ Ok m → IsFrameOf f m }
{}
