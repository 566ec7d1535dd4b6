//! What two nodes send at most, and that whole deliveries leave nothing on the way, as laws over the definitions of two
//! nodes. What bounds them at every moment stands in `specs/`.
#![tactic(auto)]

ghost use Rattle.pair_rules.specs.Messages.{MessagesAreBounded};
ghost use Rattle.pair_rules.specs.Deliveries.{DeliveriesDrain};

/// Both sides together send at most 8 messages of the handshake, at most 11 others than transactions for each round that is
/// begun, or 13 where both offer the second level, each transaction at most once over both directions, and no `notfound`. It
/// does nothing when it runs: its contract is the law.
pub fn messages_are_bounded()
    ensures { MessagesAreBounded }
{}

/// From each world that a new pair reaches without an end, 16 pairs of whole deliveries leave both wires drained, unless a
/// node ends in them. It does nothing when it runs: its contract is the law.
pub fn deliveries_drain()
    ensures { DeliveriesDrain }
{}
