//! The link of an exchange.

ghost use Rattle.std.specs.Prelude.{◌≡◌, ◌≤◌, false, true};
ghost use Rattle.erlay_base.specs.WireCalls.{IsUnused};
ghost use Rattle.text_commands.specs.Outside.{observation_of};
ghost use Rattle.erlay_cli.specs.Links.{IsLinkEnd};
ghost use Rattle.erlay_cli.specs.Sights.{wire_sight};
ghost use Rattle.node_rules.specs.declared.config.Role.TheVariants as role;

use erlay_base::{Sink, Wire, write_all};
use node_rules::Role;

/// How the making of a link ends.
#[derive(Clone, Copy, Debug, PartialEq, Eq)]
pub(crate) enum LinkEnd {
    Linked,
    /// The wire didn't connect, or didn't listen.
    Unlinked,
    /// That it listens couldn't be written.
    Unannounced,
    /// No other node's connection was accepted.
    Unaccepted,
}

/// Connects to another node, or waits for one and writes before that it listens.
pub(crate) fn link<W: Wire, O: Sink>(
    role: Role,
    address: &str,
    output: &mut O,
    wire: &mut W,
) -> LinkEnd
    requires { W.has_ended wire.old ≡ false }
    ensures end { IsLinkEnd role address.now (wire_sight W.link W.has_ended W.faults wire.old) (wire_sight W.link W.has_ended W.faults wire.new)
        (observation_of O.written O.faults output.old) (observation_of O.written O.faults output.new) result }
    ensures linked { result ≡ LinkEnd.Linked → W.is_linked wire.new ≡ true }
    ensures unused { result ≡ LinkEnd.Linked → IsUnused (W.link wire.new) }
    ensures input { W.has_ended wire.new ≡ false }
    ensures later { (W.faults wire.old ≤ W.faults wire.new) × (O.faults output.old ≤ O.faults output.new) }
{
    match role {
        Role::Opener => match wire.connect(address) {
            Ok(()) => LinkEnd::Linked,
            Err(_) => LinkEnd::Unlinked,
        },
        Role::Accepter => accept(address, output, wire),
    }
}

/// Waits for another node, and writes before that it listens.
fn accept<W: Wire, O: Sink>(address: &str, output: &mut O, wire: &mut W) -> LinkEnd
    requires { W.has_ended wire.old ≡ false }
    ensures end { IsLinkEnd role.Accepter address.now (wire_sight W.link W.has_ended W.faults wire.old) (wire_sight W.link W.has_ended W.faults wire.new)
        (observation_of O.written O.faults output.old) (observation_of O.written O.faults output.new) result }
    ensures linked { result ≡ LinkEnd.Linked → W.is_linked wire.new ≡ true }
    ensures unused { result ≡ LinkEnd.Linked → IsUnused (W.link wire.new) }
    ensures input { W.has_ended wire.new ≡ false }
    ensures later { (W.faults wire.old ≤ W.faults wire.new) × (O.faults output.old ≤ O.faults output.new) }
{
    if wire.listen(address).is_err() {
        return LinkEnd::Unlinked;
    }
    if write_all(output, b"listening\n").is_err() {
        return LinkEnd::Unannounced;
    }
    match wire.accept() {
        Ok(()) => LinkEnd::Linked,
        Err(_) => LinkEnd::Unaccepted,
    }
}
