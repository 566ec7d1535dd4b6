//! An exchange of transactions with another node.

ghost use Rattle.std.specs.Prelude.{◌≡◌, ◌≤◌, false, true};
ghost use Rattle.erlay_base.specs.WireCalls.{IsUnused};
ghost use Rattle.text_commands.specs.Outside.{observation_of};
ghost use Rattle.erlay_cli.specs.Courses.{HasCounts, HasCourse, HasLoadedCourse, HasSessionCourse, IsAnnounced, status_of};
ghost use Rattle.erlay_cli.specs.Exchanges as exchanges;
ghost use Rattle.erlay_cli.specs.Runs.{IsExchangeEnding};
ghost use Rattle.erlay_cli.specs.Sights.{shelf_sight, wire_sight};

use crate::chance::{Chance, config_of};
use crate::course::Course;
use crate::link::{LinkEnd, link};
use crate::report::report_of;
use crate::words::Exchange;
use base_types::OutOfMemory;
use erlay_base::{Shelf, Sink, Wire};
use node_rules::Role;
use pool_session::{load_pool, run_session};
use std::alloc::Global;
use text_commands::{Status, finish};
use tx_pool::Pool;

/// Exchanges transactions with another node, and writes what became of that.
pub(crate) fn exchange_status<O: Sink, W: Wire, S: Shelf>(
    alloc: Global,
    asked: &Exchange<'_>,
    chance: Chance,
    output: &mut O,
    wire: &mut W,
    shelf: &mut S,
) -> Status
    requires { W.has_ended wire.old ≡ false }
    ensures ending { IsExchangeEnding asked.now chance
        (wire_sight W.link W.has_ended W.faults wire.old) (wire_sight W.link W.has_ended W.faults wire.new)
        (shelf_sight S.told S.faults shelf.old) (shelf_sight S.told S.faults shelf.new)
        (observation_of O.written O.faults output.old) (observation_of O.written O.faults output.new) result }
    ensures later { (O.faults output.old ≤ O.faults output.new) × (W.faults wire.old ≤ W.faults wire.new) × (S.faults shelf.old ≤ S.faults shelf.new) }
{
    let course = course_of(alloc, asked, chance, output, wire, shelf);
    match report_of(alloc, course) {
        Ok(report) => finish(output, report.status, report.text.as_slice()),
        Err(halt) => finish(output, halt.status(), halt.text()),
    }
}

/// Loads the pool, and exchanges transactions with another node.
fn course_of<O: Sink, W: Wire, S: Shelf>(
    alloc: Global,
    asked: &Exchange<'_>,
    chance: Chance,
    output: &mut O,
    wire: &mut W,
    shelf: &mut S,
) -> Course
    requires { W.has_ended wire.old ≡ false }
    ensures course { HasCourse result asked.now (exchanges.config_of asked.now.role chance)
        (wire_sight W.link W.has_ended W.faults wire.old) (wire_sight W.link W.has_ended W.faults wire.new)
        (S.told shelf.old) (S.told shelf.new) }
    ensures counts { HasCounts (status_of result)
        (wire_sight W.link W.has_ended W.faults wire.old) (wire_sight W.link W.has_ended W.faults wire.new)
        (shelf_sight S.told S.faults shelf.old) (shelf_sight S.told S.faults shelf.new) }
    ensures announced { IsAnnounced asked.now.role result (observation_of O.written O.faults output.old) (observation_of O.written O.faults output.new) }
    ensures later { (O.faults output.old ≤ O.faults output.new) × (W.faults wire.old ≤ W.faults wire.new) × (S.faults shelf.old ≤ S.faults shelf.new) }
{
    match load_pool(alloc, shelf, asked.pool) {
        Ok(pool) => linked_course(alloc, asked, chance, pool, output, wire, shelf),
        Err(stop) => Course::Unloaded(stop),
    }
}

/// Makes a link, and exchanges transactions with the node at its other end.
fn linked_course<O: Sink, W: Wire, S: Shelf>(
    alloc: Global,
    asked: &Exchange<'_>,
    chance: Chance,
    pool: Pool,
    output: &mut O,
    wire: &mut W,
    shelf: &mut S,
) -> Course
    requires { W.has_ended wire.old ≡ false }
    ensures course { HasLoadedCourse result asked.now (exchanges.config_of asked.now.role chance) pool
        (wire_sight W.link W.has_ended W.faults wire.old) (wire_sight W.link W.has_ended W.faults wire.new)
        (S.told shelf.old) (S.told shelf.new) }
    ensures counts { HasCounts (status_of result)
        (wire_sight W.link W.has_ended W.faults wire.old) (wire_sight W.link W.has_ended W.faults wire.new)
        (shelf_sight S.told S.faults shelf.old) (shelf_sight S.told S.faults shelf.new) }
    ensures announced { IsAnnounced asked.now.role result (observation_of O.written O.faults output.old) (observation_of O.written O.faults output.new) }
    ensures later { (O.faults output.old ≤ O.faults output.new) × (W.faults wire.old ≤ W.faults wire.new) × (S.faults shelf.old ≤ S.faults shelf.new) }
{
    match link(asked.role, asked.address, output, wire) {
        LinkEnd::Linked => session_course(alloc, asked, chance, pool, wire, shelf),
        LinkEnd::Unlinked => Course::Unlinked,
        LinkEnd::Unannounced => Course::Unannounced,
        LinkEnd::Unaccepted => Course::Unaccepted,
    }
}

/// Exchanges transactions over a link of which nothing was used yet.
fn session_course<W: Wire, S: Shelf>(
    alloc: Global,
    asked: &Exchange<'_>,
    chance: Chance,
    pool: Pool,
    wire: &mut W,
    shelf: &mut S,
) -> Course
    requires linked { W.is_linked wire.old ≡ true }
    requires input { W.has_ended wire.old ≡ false }
    requires unused { IsUnused (W.link wire.old) }
    ensures course { HasSessionCourse result asked.now (exchanges.config_of asked.now.role chance) pool (W.link wire.old)
        (wire_sight W.link W.has_ended W.faults wire.new) (S.told shelf.old) (S.told shelf.new) }
    ensures counts { HasCounts (status_of result)
        (wire_sight W.link W.has_ended W.faults wire.old) (wire_sight W.link W.has_ended W.faults wire.new)
        (shelf_sight S.told S.faults shelf.old) (shelf_sight S.told S.faults shelf.new) }
    ensures later { (W.faults wire.old ≤ W.faults wire.new) × (S.faults shelf.old ≤ S.faults shelf.new) }
{
    let config = config_of(asked.role, chance);
    match run_session(
        alloc,
        wire,
        shelf,
        config,
        pool,
        rounds_of(asked.role),
        asked.out,
    ) {
        Ok(outcome) => Course::Over(outcome),
        Err(OutOfMemory) => Course::Starved,
    }
}

/// How many rounds a session begins.
fn rounds_of(role: Role) -> u32
    ensures { result ≡ exchanges.rounds_of role }
{
    match role {
        Role::Opener => 1,
        Role::Accepter => 0,
    }
}
