//! What holds of two nodes also where one of them has ended: what their pools gain, why they end, what they say of their
//! rounds, and what their reports have in common. The proofs are in `proofs/`; each theorem is stated by a function.
#![tactic(auto)]

ghost use Rattle.pair_rules.specs.Announcements.{RoundsAreAnnounced};
ghost use Rattle.pair_rules.specs.Ends.{NodesEndForCause};
ghost use Rattle.pair_rules.specs.Gains.{PoolsGainWhatIsAddedOrShared};
ghost use Rattle.pair_rules.specs.Reports.{ReportsAreAlikeSoFar, DrainedReportsAreAlike};

/// Over every run, also one in which a node ends, each transaction that a pool gained was added to that node by the
/// script, or is in the other node's pool. It does nothing when it runs: its contract is the theorem.
pub fn pools_gain_what_is_added_or_shared()
    ensures { PoolsGainWhatIsAddedOrShared }
{}

/// A node ends only where it has no room, and an accepter also where it is asked for a short id that it hasn't sketched.
/// It is asked for one only where the last round of the opener was answered although its difference is larger than the
/// sketch that answered. It does nothing when it runs: its contract is the theorem.
pub fn nodes_end_for_cause()
    ensures { NodesEndForCause }
{}

/// Of each round a side announces what was set aside and what it has answered, or all where the round fell back, and
/// nothing else. It does nothing when it runs: its contract is the theorem.
pub fn rounds_are_announced()
    ensures { RoundsAreAnnounced }
{}

/// The two reports of a round agree in ending and first capacity, and the accepter's list has what the opener asked for.
/// Where the round fits, the opener's list is the difference of what both have sketched. Only of the last round may the
/// accepter have no report yet, and of none whenever neither has ended and both wires are drained. It does nothing when
/// it runs: its contract is the theorem.
pub fn reports_are_alike()
    ensures so_far { ReportsAreAlikeSoFar }
    ensures drained { DrainedReportsAreAlike }
{}
