//! Why two nodes take no more events.

use base_types::OutOfMemory;
use node_rules::End;
use pair_rules::Side;

/// Why two nodes take no more events.
#[derive(Clone, Copy, Debug, PartialEq, Eq)]
pub enum DuetStop {
    /// A node has ended.
    Ended { side: Side, end: End },
    /// Memory was refused.
    OutOfMemory,
}

impl From<OutOfMemory> for DuetStop {
    ghost use Rattle.std.specs.Prelude.{◌≡◌};
    ghost use Rattle.duet.specs.declared.stop.DuetStop.TheVariants as stop;

    ghost from_gives = { λ _ told. told ≡ stop.OutOfMemory };

    fn from(_error: OutOfMemory) -> DuetStop {
        DuetStop::OutOfMemory
    }
}
