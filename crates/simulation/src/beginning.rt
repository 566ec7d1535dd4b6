//! The two nodes that a script begins with.

ghost use Rattle.std.specs.Prelude.{◌≡◌, [], IfOk};
ghost use Rattle.pair_rules.specs.World.{no_effect};
ghost use Rattle.duet.specs.Views as views;
ghost use Rattle.protocol_text_rules.specs.Pairs as pairs;
ghost use Rattle.simulation.specs.Views.{view_of};

use base_types::OutOfMemory;
use duet::Duet;
use node_rules::{Config, Role};
use protocol_text_rules::MAIN_MAGIC;
use relay_node::Node;
use std::alloc::Global;
use tx_pool::Pool;

/// The opener of salt 1 and the accepter of salt 2, with empty pools.
pub(crate) fn new_duet(alloc: Global) -> Result<Duet, OutOfMemory>
    ensures { IfOk result (λ duet. duet ≡ view_of (no_effect pairs.script_world)) }
{
    let a = new_node(alloc, Role::Opener, 1)?;
    let b = new_node(alloc, Role::Accepter, 2)?;
    Ok(Duet::new(alloc, a, b))
}

/// A node with an empty pool.
fn new_node(alloc: Global, role: Role, salt: u64) -> Result<Node, OutOfMemory>
    ensures { IfOk result (λ node. node ≡ views.new_node (pairs.script_config role salt) []) }
{
    Node::new(alloc, script_config(role, salt), Pool::empty(alloc))
}

/// A node of the main network, with the nonce 0 and the time 0.
#[tactic(auto, unfolding(protocol_text_rules::specs::Pairs::script_config))]
fn script_config(role: Role, salt: u64) -> Config
    ensures { result ≡ pairs.script_config role salt }
{
    Config {
        magic: MAIN_MAGIC,
        role,
        salt,
        nonce: 0,
        time: 0,
        top: 2,
    }
}
