//! A pool file, read.

ghost use Rattle.std.specs.Prelude.{◌≡◌, List, [], IfOk, IfErr};
ghost use Rattle.line_rules.specs.Lines.{lines_of};
ghost use Rattle.line_rules.specs.Reading.{line_fold};
ghost use Rattle.line_text.specs.Gives.{IsOutcome};
ghost use Rattle.pool_rules.specs.PoolFile.{pool_in, pool_of_lines, pool_step, pool_text};
ghost use Rattle.pool_rules.specs.Pools.{Transaction, IsPool};
ghost use Rattle.tx_pool.specs.Lines.{IsLineOutcome};

use crate::heading::{heading_count, is_heading};
use crate::line::{LineStop, id_in, tx_in};
use crate::pool::Pool;
use base_types::{Kind, TextFault};
use line_text::{ReadStop, TextLines, count};
use pool_rules::Inserted;
use short_ids::wtxid;
use std::alloc::Global;

impl Pool {
    /// The pool of a text of either form, or its first fault.
    pub fn load(alloc: Global, text: &[u8]) -> Result<Pool, ReadStop>
        ensures read { IsOutcome (λ pool. pool) result (pool_in text.now) }
        ensures sound { IfOk result IsPool }
        ensures saved { (pool : List Transaction) → IsPool pool → text.now ≡ pool_text pool → IsOutcome (λ read. read) result (Ok pool) }
    {
        match transaction_lines(text) {
            Ok(lines) => pool_of(alloc, lines),
            Err(fault) => Err(ReadStop::Fault(fault)),
        }
    }

    /// Puts in the transaction of one more line.
    fn add_line(&mut self, alloc: Global, line: &[u8]) -> Result<(), LineStop>
        ensures { IsLineOutcome (λ _. self.new) result (pool_step self.old line.now) }
    {
        let id = match id_in(line) {
            Ok(id) => id,
            Err(kind) => return Err(LineStop::Faulty(kind)),
        };
        let (_, digits) = line.split_at(65);
        let tx = match tx_in(alloc, digits) {
            Ok(tx) => tx,
            Err(stop) => return Err(stop),
        };
        let computed = wtxid(tx.as_slice());
        if id != computed {
            return Err(LineStop::Faulty(Kind::IdMismatch {
                stands: id,
                computed,
            }));
        }
        match self.insert_named(id, tx)? {
            Inserted::New => Ok(()),
            Inserted::Present => Err(LineStop::Faulty(Kind::Repeated)),
            Inserted::Full => Err(LineStop::Faulty(Kind::PoolFull)),
        }
    }
}

/// The lines of a text that list transactions: those behind its heading, where it has one.
fn transaction_lines(text: &[u8]) -> Result<TextLines<'_>, TextFault>
    ensures lines { IfOk result (λ ls. pool_in text.now ≡ line_fold pool_step [] ls) }
    ensures fault { IfErr result (λ fault. pool_in text.now ≡ Err fault) }
{
    let mut lines = TextLines::of(text);
    let Some(first) = lines.next() else {
        return Ok(lines);
    };
    if !is_heading(first.bytes) {
        return Ok(TextLines::of(text));
    }
    let Some(told) = heading_count(first.bytes) else {
        return Err(TextFault {
            place: first.number,
            kind: Kind::Form,
        });
    };
    let place = count(text) - 1;
    if place != told {
        return Err(TextFault {
            place,
            kind: Kind::LineCount,
        });
    }
    Ok(lines)
}

/// The pool of lines that list transactions.
fn pool_of(alloc: Global, lines: TextLines<'_>) -> Result<Pool, ReadStop>
    ensures { IsOutcome (λ pool. pool) result (line_fold pool_step [] lines.entry) }
{
    let mut pool = Pool::empty(alloc);
    for line in lines {
        match pool.add_line(alloc, line.bytes) {
            Ok(()) => {}
            Err(stop) => return Err(stop.at(line.number)),
        }
    }
    Ok(pool)
}
