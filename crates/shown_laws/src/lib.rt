//! The law of shown messages, in `proofs/`, stated by a function.
#![tactic(auto)]

ghost use Rattle.std.specs.Prelude.{◌≡◌, ℕ, Some, List};
ghost use Rattle.wire_rules.specs.Limits.{IsMessage};
ghost use Rattle.wire_rules.specs.Shown.{IsShown, message_text};
ghost use Rattle.wire_rules.specs.ShownReading.{shown_message};
ghost use Rattle.wire_rules.specs.declared.message.Message.{Message};

/// A message that may be sent is read back from its shown line, so no other message has this line; and what is read from a
/// line is a message that may be sent, whose shown line it is. It does nothing when it runs: its contract is the theorem.
pub fn shown_messages_are_read_back()
    ensures read { (m : Message) → IsMessage m → shown_message (message_text m) ≡ Some m }
    ensures one { (m n : Message) → IsMessage m → IsMessage n → message_text m ≡ message_text n → m ≡ n }
    ensures line { (line : List ℕ) (m : Message) → shown_message line ≡ Some m → IsShown line m }
{}
