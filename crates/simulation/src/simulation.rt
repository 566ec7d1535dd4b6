//! A script at two new nodes.

ghost use Rattle.std.specs.Prelude.{◌≡◌, IfOk};
ghost use Rattle.pair_rules.specs.Headline.{IsFinishedWhereDrained};
ghost use Rattle.pair_rules.specs.Reports.{AreAlikeWhereDrained};
ghost use Rattle.pair_rules.specs.World.{IsScript};
ghost use Rattle.protocol_text_rules.specs.Pairs as pairs;
ghost use Rattle.simulation.specs.Views.{end_in, view_of};

use crate::beginning::new_duet;
use crate::run_text::run_text;
use base_types::OutOfMemory;
use duet::{Duet, DuetStop};
use node_rules::End;
use pair_rules::Event;
use std::alloc::Global;

/// What is told of two nodes behind a script.
#[derive(Drop)]
pub struct Simulation {
    /// What is written of them, in lines that end with LF: the reports of the opener and of the accepter, both phases, how
    /// many additions found no room, both pools, whether nothing is on the way, and the end of each that has ended.
    pub text: Vec<u8>,
    /// Why a node has ended, where one has: the opener's end before the accepter's.
    pub end: Option<End>,
}

/// What a script does to two new nodes of the main network, the opener of salt 1 and the accepter of salt 2, both with the
/// nonce 0, the time 0 and an empty pool. The text lists the ids of both pools `with_ids`. A node that ends takes no further
/// event, and that is no error.
pub fn simulation_of(
    alloc: Global,
    script: &[Event],
    with_ids: bool,
) -> Result<Simulation, OutOfMemory>
    requires { IsScript script.now }
    ensures text { IfOk result (λ s. s.text.items ≡ pairs.run_text with_ids (pairs.simulation script.now)) }
    ensures end { IfOk result (λ s. s.end ≡ end_in (pairs.simulation script.now).world) }

    // What holds of the world of which the text tells, where no node has ended and nothing is on the way:
    ensures finished { IfOk result (λ s. IsFinishedWhereDrained (pairs.simulation script.now).world) }
    ensures alike { IfOk result (λ s. AreAlikeWhereDrained (pairs.simulation script.now).world) }
{
    let duet = duet_behind(alloc, script)?;
    Ok(Simulation {
        text: run_text(alloc, &duet, with_ids)?,
        end: duet.a().end().or(duet.b().end()),
    })
}

/// Two new nodes behind a script.
fn duet_behind(alloc: Global, script: &[Event]) -> Result<Duet, OutOfMemory>
    requires { IsScript script.now }
    ensures { IfOk result (λ duet. duet ≡ view_of (pairs.simulation script.now)) }
{
    let mut duet = new_duet(alloc)?;
    match duet.run(script) {
        Ok(()) => Ok(duet),
        Err(DuetStop::Ended { .. }) => Ok(duet),
        Err(DuetStop::OutOfMemory) => Err(OutOfMemory),
    }
}
