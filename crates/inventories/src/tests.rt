//! Two ids, and none.

use super::*;
use std::process::Abort;

#[test]
fn ids_are_announced_and_asked_for(rt: HostRuntime) {
    let alloc = rt.alloc();
    let ids = [Hash32([1; 32]), Hash32([2; 32])];
    let announced = announcement_of(alloc, &ids).expect(&rt, "memory");
    let asked = request_of(alloc, &ids).expect(&rt, "memory");
    let entries = entries_of(alloc, &ids).expect(&rt, "memory");
    let refused = refusal_of(alloc, entries.as_slice()).expect(&rt, "memory");
    let expected = [
        InvEntry {
            kind: 5,
            id: ids[0],
        },
        InvEntry {
            kind: 5,
            id: ids[1],
        },
    ];
    let [Message::Inv(items)] = announced.as_slice() else {
        rt.abort()
    };
    assert_eq!(rt; items.as_slice(), expected.as_slice());
    let [Message::GetData(items)] = asked.as_slice() else {
        rt.abort()
    };
    assert_eq!(rt; items.as_slice(), expected.as_slice());
    let [Message::NotFound(items)] = refused.as_slice() else {
        rt.abort()
    };
    assert_eq!(rt; items.as_slice(), expected.as_slice());
    for messages in [
        announcement_of(alloc, &[]).expect(&rt, "memory"),
        request_of(alloc, &[]).expect(&rt, "memory"),
        refusal_of(alloc, &[]).expect(&rt, "memory"),
    ] {
        assert!(rt; messages.is_empty());
    }
}
