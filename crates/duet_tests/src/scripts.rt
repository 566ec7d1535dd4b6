//! Random scripts at each pair of versions.

use crate::counts::{Counts, NONE};
use crate::pairs::{Tops, add, deliver, pair_of};
use crate::random::Random;
use crate::run::{Run, check, drain, run_of, try_round};
use pair_rules::Side;
use std::alloc::Global;
use std::process::Abort;

/// Adds so many transactions to a side, most of which the other lacks.
fn add_some(rt: &impl Abort, alloc: Global, run: &mut Run, random: &mut Random, side: Side) {
    let count = random.below(32);
    for _ in 0..count {
        add(rt, alloc, &mut run.duet, side, random.next());
    }
}

/// One random event.
fn step(rt: &impl Abort, alloc: Global, run: &mut Run, random: &mut Random) {
    let number = random.below(1_000);
    match random.below(12) {
        0 => add(rt, alloc, &mut run.duet, Side::A, number),
        1 => add(rt, alloc, &mut run.duet, Side::B, number),
        2 => {
            add(rt, alloc, &mut run.duet, Side::A, number);
            add(rt, alloc, &mut run.duet, Side::B, number);
        }
        3 => try_round(rt, run),
        4..=7 => deliver(rt, &mut run.duet, Side::A, random.cut()),
        _ => deliver(rt, &mut run.duet, Side::B, random.cut()),
    }
}

/// So many random events.
fn steps(rt: &impl Abort, alloc: Global, run: &mut Run, random: &mut Random, count: u64) {
    for _ in 0..count {
        step(rt, alloc, run, random);
    }
}

/// Random events, transactions that one side lacks, and a round in whose middle more happens.
fn script(rt: &impl Abort, alloc: Global, run: &mut Run, random: &mut Random) {
    let count = random.below(200);
    steps(rt, alloc, run, random, count);
    add_some(rt, alloc, run, random, Side::A);
    add_some(rt, alloc, run, random, Side::B);
    try_round(rt, run);
    steps(rt, alloc, run, random, count);
    drain(rt, &mut run.duet);
}

/// A script at two new nodes, and another behind it.
fn run_scripts(rt: &impl Abort, alloc: Global, tops: Tops, seed: u64, counts: &mut Counts) {
    let mut random = Random(seed);
    let mut run = run_of(rt, pair_of(rt, alloc, tops));
    script(rt, alloc, &mut run, &mut random);
    script(rt, alloc, &mut run, &mut random);
    check(rt, &run, counts);
}

/// How the rounds of a hundred scripts ended.
fn counts_at(rt: &impl Abort, alloc: Global, tops: Tops) -> Counts {
    let mut counts = NONE;
    for seed in 0..100 {
        run_scripts(rt, alloc, tops, seed, &mut counts);
    }
    counts
}

/// Where one side offers one extension at most, no round has a second.
fn has_no_second(rt: &impl Abort, alloc: Global, tops: Tops) {
    let counts = counts_at(rt, alloc, tops);
    assert!(rt; 0 < counts.first && 0 < counts.extension);
    assert!(rt; counts.extension2 == 0 && 0 < counts.fallback);
}

/// Where both offer two, each ending comes.
fn has_second(rt: &impl Abort, alloc: Global, tops: Tops) {
    let counts = counts_at(rt, alloc, tops);
    assert!(rt; 0 < counts.first && 0 < counts.extension);
    assert!(rt; 0 < counts.extension2 && 0 < counts.fallback);
}

#[test]
fn scripts_at_1_and_1_finish(rt: HostRuntime) {
    has_no_second(&rt, rt.alloc(), Tops { a: 1, b: 1 });
}

#[test]
fn scripts_at_1_and_2_finish(rt: HostRuntime) {
    has_no_second(&rt, rt.alloc(), Tops { a: 1, b: 2 });
}

#[test]
fn scripts_at_2_and_1_finish(rt: HostRuntime) {
    has_no_second(&rt, rt.alloc(), Tops { a: 2, b: 1 });
}

#[test]
fn scripts_at_2_and_2_finish(rt: HostRuntime) {
    has_second(&rt, rt.alloc(), Tops { a: 2, b: 2 });
}
