//! The headline of this project, in `proofs/`, stated by a function.
#![tactic(auto)]

ghost use Rattle.pair_rules.specs.Headline.{DrainedWorldsAreFinished};

/// Between two nodes in opposite roles that have not ended, however bytes are cut, directions interleaved, transactions added
/// and rounds begun, whenever both wires are drained every begun round is finished, and has left both snapshots in both pools,
/// if it fell back, or if its short ids are apart and its difference fits the sketch that answered. It does nothing when it
/// runs: its contract is the theorem.
pub fn drained_worlds_are_finished()
    ensures { DrainedWorldsAreFinished }
{}
