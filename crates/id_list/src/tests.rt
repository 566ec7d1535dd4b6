//! A list of a few ids, each call once with ample memory.

use crate::{Entry, IdList};
use base_types::Hash32;

#[test]
fn ids_come_and_go(rt: HostRuntime) {
    let ids = [Hash32([1; 32]), Hash32([2; 32]), Hash32([3; 32])];
    let mut list = IdList::new(rt.alloc());
    assert!(rt; list.is_empty());
    for (i, id) in ids.iter().enumerate() {
        assert!(rt; !list.contains(id));
        let place = list.push(*id, i).expect(&rt, "memory");
        assert_eq!(rt; list.at(place), Some(&Entry { id: *id, value: i }));
    }
    assert_eq!(rt; list.len(), 3);
    assert_eq!(rt; list.get(&ids[1]), Some(1));
    assert_eq!(rt; list.remove(&ids[0]).map(|gone| gone.1), Some(0));
    assert_eq!(rt; list.remove(&ids[0]), None);
    assert_eq!(rt; list.get(&ids[0]), None);
    assert!(rt; !list.contains(&ids[0]));
    list.push(ids[0], 9).expect(&rt, "memory");
    for (entry, value) in list.iter().zip([1, 2, 9]) {
        assert_eq!(rt; entry.value, value);
    }
    let mut taken = list.take();
    assert!(rt; list.is_empty());
    taken.remove_all(&[ids[2], ids[2], Hash32([4; 32])]);
    assert_eq!(rt; taken.len(), 2);
    taken.clear();
    assert!(rt; taken.is_empty());
}
