//! Which messages may be sent.

ghost use Rattle.std.specs.Prelude.{◌≡◌};
ghost use Rattle.wire_rules.specs.Limits as limits;

use command_names::name_at;
use id_rules::TX_LIMIT;
use p2p_frame::is_command_field;
use wire_rules::{AGENT_LIMIT, LIST_LIMIT, Message, PAYLOAD_LIMIT};

/// Whether counts and lengths are within their limits, and another command is a command field that is none of the known
/// ones.
#[tactic(auto, unfolding(wire_rules::specs::Limits::is_within_limits))]
pub fn is_within_limits(message: &Message) -> bool
    ensures { result ≡ limits.is_within_limits message.now }
{
    match message {
        Message::Version(version) => version.agent.as_slice().len() <= AGENT_LIMIT,
        Message::Sketch(bytes) => bytes.as_slice().len() <= LIST_LIMIT,
        Message::ReconcilDiff { asks, .. } => asks.as_slice().len() <= LIST_LIMIT,
        Message::Inv(entries) | Message::GetData(entries) | Message::NotFound(entries) => {
            entries.as_slice().len() <= LIST_LIMIT
        }
        Message::Tx(tx) => {
            let len = tx.as_slice().len();
            0 < len && len <= TX_LIMIT
        }
        Message::Other { command, payload } => {
            is_command_field(command)
                && name_at(command).is_none()
                && payload.as_slice().len() <= PAYLOAD_LIMIT
        }
        _ => true,
    }
}
