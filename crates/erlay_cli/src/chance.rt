//! What a run takes from the random source and the clock of its machine.

ghost use Rattle.std.specs.Prelude.{◌≡◌};
ghost use Rattle.node_rules.specs.Invariant.{IsConfig};
ghost use Rattle.erlay_cli.specs.Exchanges as exchanges;

use node_rules::{Config, Role};
use protocol_text_rules::MAIN_MAGIC;

/// What a run takes from the random source and the clock of its machine.
#[derive(Clone, Copy, Debug)]
pub struct Chance {
    /// This side's salt of the short ids.
    pub salt: u64,
    /// The nonce of its `version`.
    pub nonce: u64,
    /// The seconds since 1970, for its `version`.
    pub time: i64,
}

/// A node of the main network, by what chance and the clock gave. It offers two extensions.
#[tactic(auto, unfolding(crate::specs::Exchanges::config_of))]
pub(crate) fn config_of(role: Role, chance: Chance) -> Config
    ensures value { result ≡ exchanges.config_of role chance }
    ensures config { IsConfig result }
{
    Config {
        magic: MAIN_MAGIC,
        role,
        salt: chance.salt,
        nonce: chance.nonce,
        time: chance.time,
        top: 2,
    }
}
