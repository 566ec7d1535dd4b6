//! What is written of two nodes behind a run.

ghost use Rattle.std.specs.Prelude.{◌≡◌, ◌++◌, ◌∷◌, [], IfOk, OnOk};
ghost use Rattle.pair_rules.specs.World.{no_effect};
ghost use Rattle.pair_rules.specs.declared.side.Side.TheVariants as side;
ghost use Rattle.protocol_text_rules.specs.Ends as ends;
ghost use Rattle.protocol_text_rules.specs.Pairs as pairs;

use base_types::OutOfMemory;
use duet::Duet;
use node_rules::End;
use pair_rules::Side;
use relay_node::Node;
use round_text::{
    put_full_line, put_id_lines, put_phase_line, put_pool_line, put_report_lines, side_refused_text,
};
use std::alloc::{AllocError, Global};
use tx_pool::Pool;

/// All that is written of two nodes, with or without the ids of their pools.
pub(crate) fn run_text(alloc: Global, duet: &Duet, with_ids: bool) -> Result<Vec<u8>, OutOfMemory>
    ensures { IfOk result (λ text. text.items ≡ pairs.run_text with_ids (record (no_effect duet.now.world) { full = duet.now.full })) }
{
    let mut text = Vec::new(alloc);
    put_pair(&mut text, duet, with_ids)?;
    put_end(&mut text, Side::A, duet.a().end())?;
    put_end(&mut text, Side::B, duet.b().end())?;
    Ok(text)
}

fn put_pair(out: &mut Vec<u8>, duet: &Duet, with_ids: bool) -> Result<(), OutOfMemory>
    ensures { OnOk result (out.new.items ≡ out.old.items ++ pairs.pair_text with_ids (record (no_effect duet.now.world) { full = duet.now.full })) }
{
    put_reports(out, Side::A, duet.a())?;
    put_reports(out, Side::B, duet.b())?;
    put_phase_line(out, Side::A, duet.a().phase())?;
    put_phase_line(out, Side::B, duet.b().phase())?;
    put_full_line(out, duet.full())?;
    put_pool(out, Side::A, duet.a().pool(), with_ids)?;
    put_pool(out, Side::B, duet.b().pool(), with_ids)?;
    put_drained_line(out, duet)?;
    Ok(())
}

/// The lines of a node's reports.
fn put_reports(out: &mut Vec<u8>, side: Side, node: &Node) -> Result<(), OutOfMemory>
    ensures { OnOk result (out.new.items ≡ out.old.items ++ pairs.report_lines (ends.side_text side ∷ []) 1 node.now.state.machine.reports) }
{
    put_report_lines(out, Some(side), 1, node.reports())
}

fn put_pool(out: &mut Vec<u8>, side: Side, pool: &Pool, with_ids: bool) -> Result<(), OutOfMemory>
    ensures { OnOk result (out.new.items ≡ out.old.items ++ pairs.pool_lines with_ids side pool.now) }
{
    put_pool_line(out, Some(side), pool.len())?;
    put_ids(out, pool, with_ids)
}

/// The ids of a pool, where they are to be told.
fn put_ids(out: &mut Vec<u8>, pool: &Pool, with_ids: bool) -> Result<(), OutOfMemory>
    ensures { OnOk result (out.new.items ≡ out.old.items ++ pairs.id_lines with_ids pool.now) }
{
    if with_ids {
        put_id_lines(out, pool.ids()?.as_slice())?;
    }
    Ok(())
}

fn put_drained_line(out: &mut Vec<u8>, duet: &Duet) -> Result<(), OutOfMemory>
    ensures { OnOk result (out.new.items ≡ out.old.items ++ pairs.drained_line duet.now.world) }
{
    out.extend_from_slice(b"drained ")?;
    out.extend_from_slice(drained_word(duet))?;
    out.push(b'\n')?;
    Ok(())
}

fn drained_word(duet: &Duet) -> &'static [u8]
    ensures { result.now ≡ pairs.drained_word duet.now.world.ab duet.now.world.ba }
{
    if duet.drained() { b"yes" } else { b"no" }
}

/// The line of a side that has ended.
fn put_end(out: &mut Vec<u8>, side: Side, end: Option<End>) -> Result<(), OutOfMemory>
    ensures { OnOk result (out.new.items ≡ out.old.items ++ pairs.end_line side end) }
{
    if let Some(end) = end {
        out.extend_from_slice(side_refused_text(*out.allocator(), side, &end)?.as_slice())?;
        out.push(b'\n')?;
    }
    Ok(())
}
