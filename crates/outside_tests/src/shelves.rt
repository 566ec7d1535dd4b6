//! Shelves: each call of the fake, and each of them failing; whole contents; and a shelf of files.

use crate::fakes::{TEN, only};
use erlay_base::{DirShelf, Failed, MemShelf, ReadEnd, Shelf, load_all};
use std::alloc::{AllocError, Global};
use std::process::Abort;
use std::rt::Files;
use std::test::Fail;
use std::{env, fs};

/// Makes four calls, and answers the number of the first one that failed, and else 0; and how many bytes the third one read,
/// where it came so far.
fn first_fault<S: Shelf>(shelf: &mut S) -> (u64, usize) {
    let mut buf = [0u8; 4];
    if shelf.read_at("a", 0, &mut buf).is_err() {
        return (1, 0);
    }
    if shelf.save("b", b"new").is_err() {
        return (2, 0);
    }
    let Ok(count) = shelf.read_at("b", 1, &mut buf) else {
        return (3, 0);
    };
    if shelf.save("a", b"other").is_err() {
        return (4, count);
    }
    (0, count)
}

/// A shelf that holds the bytes as `a`, of which the call with the number `failing` fails.
fn shelf_of(alloc: Global, bytes: &[u8], failing: u64) -> Result<MemShelf, AllocError> {
    let mut held = Vec::new(alloc);
    held.push((String::from_str(alloc, "a")?, bytes.to_vec(alloc)?))?;
    Ok(MemShelf::new(alloc, held, only(alloc, failing)?))
}

/// That of the four calls the one with the number `failing` fails alone, where there is one, and what is held then.
fn assert_calls(
    rt: &impl Abort,
    alloc: Global,
    failing: u64,
    told: (u64, usize),
    a: &[u8],
    b: Option<&[u8]>,
) {
    let mut shelf = shelf_of(alloc, b"old", failing).expect(rt, "memory");
    assert_eq!(rt; first_fault(&mut shelf), told, "{failing}");
    assert_eq!(rt; shelf.content("a"), Some(a), "{failing}");
    assert_eq!(rt; shelf.content("b"), b, "{failing}");
    assert_eq!(rt; shelf.content("c"), None, "{failing}");
}

#[test]
fn shelf_calls_each_pass_and_fail(rt: HostRuntime) {
    let alloc = rt.alloc();
    assert_calls(&rt, alloc, 1, (1, 0), b"old", None);
    assert_calls(&rt, alloc, 2, (2, 0), b"old", None);
    assert_calls(&rt, alloc, 3, (3, 0), b"old", Some(b"new"));
    assert_calls(&rt, alloc, 4, (4, 2), b"old", Some(b"new"));
    assert_calls(&rt, alloc, 5, (0, 2), b"other", Some(b"new"));
}

/// Why loading a name stops, if it doesn't give the whole content.
fn loaded(
    rt: &impl Abort,
    alloc: Global,
    content: &[u8],
    name: &str,
    limit: usize,
    failing: u64,
) -> Option<ReadEnd> {
    let mut shelf = shelf_of(alloc, content, failing).expect(rt, "memory");
    match load_all(alloc, &mut shelf, name, limit.min(1_000_000)) {
        Ok(bytes) => {
            assert!(rt; bytes.as_slice() == content);
            None
        }
        Err(end) => Some(end),
    }
}

#[test]
fn loads_whole_contents_or_stops(rt: HostRuntime) {
    // the content, its name, the limit, the call that fails, and why it stopped
    for (content, name, limit, failing, stop) in [
        (TEN, "a", 10, 9, None),
        (TEN, "a", 1000, 9, None),
        (TEN, "a", 9, 9, Some(ReadEnd::TooLong)),
        (TEN, "a", 0, 9, Some(ReadEnd::TooLong)),
        (b"", "a", 0, 9, None),
        (TEN, "b", 10, 9, Some(ReadEnd::Failed)),
        (TEN, "a", 10, 1, Some(ReadEnd::Failed)),
        (TEN, "a", 10, 2, Some(ReadEnd::Failed)),
        // two calls find the end, and no third is made
        (TEN, "a", 10, 3, None),
    ] {
        let told = loaded(&rt, rt.alloc(), content, name, limit, failing);
        assert_eq!(rt; told, stop, "{limit} {failing}");
    }
}

#[test]
fn loads_contents_of_several_pieces(rt: HostRuntime) -> Result<(), Fail> {
    let alloc = rt.alloc();
    let long = vec![in alloc; 7u8; 40_000]?;
    // the limit, the call that fails, and why it stopped
    for (limit, failing, stop) in [
        (40_000, 9, None),
        (39_999, 9, Some(ReadEnd::TooLong)),
        (40_000, 3, Some(ReadEnd::Failed)),
    ] {
        let told = loaded(&rt, alloc, long.as_slice(), "a", limit, failing);
        assert_eq!(rt; told, stop, "{limit} {failing}");
    }
    Ok(())
}

/// That a shelf of files refuses a name in a folder that isn't there.
fn assert_missing<R: Files>(rt: &impl Abort, alloc: Global, shelf: &mut DirShelf<R>) {
    let name = "no such folder/name";
    assert_eq!(rt;
        load_all(alloc, shelf, name, 10).err(),
        Some(ReadEnd::Failed)
    );
    assert_eq!(rt; shelf.save(name, TEN), Err(Failed));
}

/// That a shelf of files loads what it saves, of more than four bytes and at most ten.
fn assert_kept<R: Files>(
    rt: &impl Abort,
    alloc: Global,
    shelf: &mut DirShelf<R>,
    name: &str,
    content: &[u8],
) {
    assert_eq!(rt; shelf.save(name, content), Ok(()));
    let Ok(bytes) = load_all(alloc, shelf, name, 10) else {
        rt.abort()
    };
    assert_eq!(rt; bytes.as_slice(), content);
    assert_eq!(rt;
        load_all(alloc, shelf, name, 4).err(),
        Some(ReadEnd::TooLong)
    );
}

#[test]
fn shelf_of_files_saves_and_loads(rt: HostRuntime) -> Result<(), Fail> {
    let alloc = rt.alloc();
    let path = env::temp_dir(&rt)?.join(alloc, "erlay_shelf_of_files")?;
    let Some(name) = path.to_str() else {
        return Err(Fail::from("no path"));
    };
    let mut shelf = DirShelf::new(&rt);
    assert_missing(&rt, alloc, &mut shelf);
    assert_kept(&rt, alloc, &mut shelf, name, TEN);
    assert_kept(&rt, alloc, &mut shelf, name, b"short");
    fs::remove_file(&rt, name)?;
    Ok(())
}
