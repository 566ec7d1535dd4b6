//! Two processes of the program over TCP. The binary of the tests starts itself for each of them.

use crate::code_of;
use base_types::Bytes;
use std::alloc::Global;
use std::io::{BufRead, BufReader, Read};
use std::path::Path;
use std::process::{Abort, Command, Stdio};
use std::test::Fail;
use std::{env, fs};
use tx_pool::Pool;

/// What a child process does: the program with the words of an environment variable. Where there is none it does nothing.
#[test]
fn child(rt: HostRuntime) -> Result<(), Fail> {
    let Ok(words) = env::var(&rt, "ERLAY_WORDS") else {
        return Ok(());
    };
    let alloc = rt.alloc();
    let mut arguments = vec![in alloc; "erlay".to_string(alloc)?]?;
    for word in words.split(' ') {
        arguments.push(word.to_string(alloc)?)?;
    }
    let code = code_of(&rt, Ok(arguments));
    println!(rt; "status {code}")?;
    Ok(())
}

/// A transaction of 250 bytes for a number.
fn transaction(rt: &impl Abort, alloc: Global, number: u64) -> Bytes {
    let mut bytes = vec![in alloc; 7u8; 250].expect(rt, "memory");
    bytes[..8].copy_from_slice(&number.to_be_bytes());
    Bytes::from_vec(bytes)
}

/// The text of a pool of the transactions of these numbers.
fn pool_text(rt: &impl Abort, alloc: Global, from: u64, to: u64) -> Bytes {
    let mut pool = Pool::empty(alloc);
    for number in from..to {
        let tx = transaction(rt, alloc, number);
        assert!(rt; !tx.as_slice().is_empty() && tx.as_slice().len() <= 250);
        pool.insert(tx).expect(rt, "memory");
    }
    pool.save_text().expect(rt, "memory")
}

/// This binary, as the program with these words.
fn program(alloc: Global, binary: &Path, words: &str) -> Result<Command, Fail> {
    let mut command = Command::new(alloc, binary)?;
    command
        .arg("process_tests::child")?
        .env("ERLAY_WORDS", words)?;
    Ok(command)
}

/// The lines of a file, sorted.
fn sorted_lines(rt: &HostRuntime, name: &str) -> Result<Vec<String>, Fail> {
    let alloc = rt.alloc();
    let text = fs::read_to_string(rt, name)?;
    let mut lines = Vec::new(alloc);
    for line in text.lines() {
        lines.push(line.to_string(alloc)?)?;
    }
    lines.sort()?;
    Ok(lines)
}

/// Pools of 2,000 and 2,010 transactions, of which 1,975 are common.
#[test]
fn two_processes_have_the_same_transactions(rt: HostRuntime) -> Result<(), Fail> {
    let alloc = rt.alloc();
    fs::write(&rt, "ours.pool", pool_text(&rt, alloc, 0, 2000).as_slice())?;
    fs::write(
        &rt,
        "theirs.pool",
        pool_text(&rt, alloc, 25, 2035).as_slice(),
    )?;
    let binary = env::current_exe(&rt)?;
    let serve = "serve 127.0.0.1:18445 theirs.pool theirs.after";
    let mut server = program(alloc, &binary.as_path(), serve)?
        .stdout(Stdio::piped())
        .spawn(&rt)?;
    let Some(stdout) = server.stdout.take() else {
        return Err(Fail::from("no output"));
    };
    let mut served = BufReader::new(alloc, stdout)?;
    let mut line = String::new(alloc);
    served.read_line(&mut line)?;
    assert_eq!(rt; line.as_str(), "listening\n");
    let sync = "sync 127.0.0.1:18445 ours.pool ours.after";
    let output = program(alloc, &binary.as_path(), sync)?.output(&rt)?;
    // how many short ids are answered is chance: two may be equal
    let text = str::from_utf8(output.stdout.as_slice())?;
    assert!(rt;
        text.starts_with("round 1 first 511 2000 ") && text.contains("\npool 2035\nstatus 0\n"),
        "{text}"
    );
    let mut rest = String::new(alloc);
    served.read_to_string(&mut rest)?;
    assert!(rt;
        rest.as_str().starts_with("round 1 first 511 2010 "),
        "{rest}"
    );
    assert!(rt; rest.as_str().contains("\npool 2035\nstatus 0\n"), "{rest}");
    assert!(rt; server.wait()?.success());
    let ours = sorted_lines(&rt, "ours.after")?;
    let theirs = sorted_lines(&rt, "theirs.after")?;
    assert_eq!(rt; ours.len(), 2036);
    assert!(rt; ours.as_slice() == theirs.as_slice());
    for name in ["ours.pool", "theirs.pool", "ours.after", "theirs.after"] {
        fs::remove_file(&rt, name)?;
    }
    Ok(())
}
