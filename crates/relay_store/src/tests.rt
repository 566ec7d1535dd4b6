//! Each call once, with ample memory.

ghost use Rattle.std.specs.Prelude.{◌≡◌, IfOk, IsTrue, [], length};
ghost use Rattle.id_rules.specs.Bytes.{is_tx_length};
ghost use Rattle.relay_store.specs.Holdings.{AreHoldings};

use super::{Receipt, Store};
use base_types::{Bytes, Hash32, OutOfMemory};
use short_ids::wtxid;
use std::alloc::Global;
use std::process::Abort;
use std::test::Fail;
use tx_pool::Pool;
use wire_rules::InvEntry;

// The id of 'abc', by an independent implementation of SHA-256.
const ABC: Hash32 = Hash32(
    *b"\x4f\x8b\x42\xc2\x2d\xd3\x72\x9b\x51\x9b\xa6\xf6\x8d\x2d\xa7\xcc\x5b\x2d\x60\x6d\x05\xda\xed\x5a\xd5\x12\x8c\xc0\x3e\x6c\x63\x58",
);

// A store that wants the id of 'abc'.
fn store_wanting(alloc: Global) -> Result<Store, OutOfMemory>
    ensures held { IfOk result (λ store. AreHoldings store) }
    ensures none { IfOk result (λ store. store.wants.asked ≡ []) }
{
    let mut store = Store::new(alloc, Pool::empty(alloc));
    store.want(&[ABC])?;
    Ok(store)
}

// A store that asks for it.
fn store_asking(alloc: Global) -> Result<Store, OutOfMemory>
    ensures { IfOk result (λ store. AreHoldings store) }
{
    let mut store = Store::new(alloc, Pool::empty(alloc));
    store.ask(&[ABC])?;
    Ok(store)
}

#[test]
fn wants_take_room(rt: HostRuntime) -> Result<(), Fail> {
    let store = store_asking(rt.alloc())?;
    assert_eq!(rt; store.open_wants(), 1);
    assert!(rt; store.has_room(49_999));
    assert!(rt; !store.has_room(50_000));
    Ok(())
}

#[test]
fn what_is_wanted_is_asked_for(rt: HostRuntime) -> Result<(), Fail> {
    let mut store = store_wanting(rt.alloc())?;
    assert!(rt; !store.has_asked());
    store.ask_wanted();
    assert!(rt; store.has_asked());
    store.clear_wants();
    assert!(rt; !store.has_asked());
    Ok(())
}

// The transaction of an entry comes, where it is asked for, is known then, and is served once.
fn comes_and_goes(
    rt: &impl Abort,
    store: &mut Store,
    tx: &[u8],
    entry: &InvEntry,
) -> Result<(), Fail>
    requires held { AreHoldings store.old }
    requires sized { IsTrue (is_tx_length (length tx.now)) }
{
    assert_eq!(rt; store.receive(tx)?, Receipt::Taken);
    assert!(rt; store.pool().contains(&entry.id) && !store.is_open_want(&entry.id));
    let entries = [*entry];
    assert_eq!(rt; store.unknown_ids(&entries)?.as_slice().len(), 0);
    assert!(rt; store.serve(entry)?);
    assert!(rt; !store.serve(entry)?);
    Ok(())
}

#[test]
fn a_transaction_comes_and_is_served_once(rt: HostRuntime) -> Result<(), Fail> {
    let mut store = store_asking(rt.alloc())?;
    let entry = InvEntry { kind: 5, id: ABC };
    comes_and_goes(&rt, &mut store, b"abc", &entry)
}

// A transaction that is asked for is put in by the node's own side.
fn is_put_in(rt: &impl Abort, alloc: Global, store: &mut Store, tx: &[u8]) -> Result<(), Fail>
    requires held { AreHoldings store.old }
    requires sized { IsTrue (is_tx_length (length tx.now)) }
{
    let id = wtxid(tx);
    assert!(rt; !store.pool().contains(&id));
    assert!(rt; !store.is_full(&id, tx));
    let bytes = Bytes::from_vec(Vec::from_slice(alloc, tx)?);
    store.insert(id, bytes)?;
    assert!(rt; store.pool().contains(&id) && store.is_open_want(&id));
    let entry = InvEntry { kind: 5, id };
    store.forget(&[entry]);
    assert!(rt; !store.has_asked());
    Ok(())
}

#[test]
fn a_transaction_is_put_in(rt: HostRuntime) -> Result<(), Fail> {
    let mut store = store_asking(rt.alloc())?;
    is_put_in(&rt, rt.alloc(), &mut store, b"abc")
}
