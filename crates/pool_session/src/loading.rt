//! A pool that is a file of a shelf, loaded.

ghost use Rattle.std.specs.Prelude.{◌≡◌, ◌≢◌, ◌≤◌, Err, IfOk};
ghost use Rattle.erlay_base.specs.Causes.{HasRisen};
ghost use Rattle.erlay_base.specs.ShelfCalls.{AreReads};
ghost use Rattle.erlay_base.specs.Told.{AreTold};
ghost use Rattle.pool_rules.specs.Pools.{IsPool};
ghost use Rattle.pool_session.specs.PoolFiles.{IsLoaded};

use base_types::TextFault;
use erlay_base::{ReadEnd, Shelf, load_all};
use line_text::ReadStop;
use pool_rules::POOL_FILE_LIMIT;
use std::alloc::Global;
use tx_pool::Pool;

/// Why a pool wasn't loaded.
#[derive(Clone, Copy, Debug, PartialEq, Eq)]
pub enum PoolStop {
    /// The first fault of the file's text.
    Fault(TextFault),
    /// The file has more bytes than a pool file may have.
    TooLong,
    /// A call of the shelf failed.
    ShelfFault,
    OutOfMemory,
}

/// The pool in the file of that name. It makes no other calls than reads of it, and none after one that failed.
pub fn load_pool<S: Shelf>(alloc: Global, shelf: &mut S, name: &str) -> Result<Pool, PoolStop>
    ensures loaded { IsLoaded result (S.told shelf.old) name.now }
    ensures sound { IfOk result IsPool }
    ensures reads { AreTold (S.told shelf.old) (S.told shelf.new) (AreReads name.now) }
    ensures fault { result ≡ Err PoolStop.ShelfFault → HasRisen (S.faults shelf.old) (S.faults shelf.new) }
    ensures no_fault { result ≢ Err PoolStop.ShelfFault → S.faults shelf.new ≡ S.faults shelf.old }
    ensures later { S.faults shelf.old ≤ S.faults shelf.new }
{
    let text = match load_all(alloc, shelf, name, POOL_FILE_LIMIT as usize) {
        Ok(text) => text,
        Err(ReadEnd::Failed) => return Err(PoolStop::ShelfFault),
        Err(ReadEnd::TooLong) => return Err(PoolStop::TooLong),
        Err(ReadEnd::OutOfMemory) => return Err(PoolStop::OutOfMemory),
    };
    match Pool::load(alloc, text.as_slice()) {
        Ok(pool) => Ok(pool),
        Err(ReadStop::Fault(fault)) => Err(PoolStop::Fault(fault)),
        Err(ReadStop::OutOfMemory) => Err(PoolStop::OutOfMemory),
    }
}
