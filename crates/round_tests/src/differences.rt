//! What two sides differ in, by their pairs alone.

use crate::made::Pair;
use base_types::Hash32;
use pool_rules::Ending;
use std::alloc::{AllocError, Global};

/// Whether a short id stands once.
fn is_single(pairs: &[Pair], short: u32) -> bool {
    pairs.iter().filter(|pair| pair.1 == short).count() == 1
}

/// How many short ids stand once in the first and not in the second.
fn count_alone(own: &[Pair], other: &[Pair]) -> usize {
    own.iter()
        .filter(|pair| is_single(own, pair.1) && !is_single(other, pair.1))
        .count()
}

/// How many short ids stand once on one side only.
pub fn difference_size(ours: &[Pair], theirs: &[Pair]) -> usize {
    count_alone(ours, theirs).saturating_add(count_alone(theirs, ours))
}

/// How a round ends, by what fits the sketches that may be sent (BIP 330, and a second extension at level 2).
pub fn ending_at(level: u32, capacity: usize, difference: usize) -> Ending {
    if difference <= capacity {
        Ending::First
    } else if difference <= capacity.saturating_mul(2) {
        Ending::Extension
    } else if level == 2 && difference <= capacity.saturating_mul(4) {
        Ending::Extension2
    } else {
        Ending::Fallback
    }
}

/// The ids that are announced, in order: those that are set aside, or whose short ids the other side hasn't sketched; or all.
pub fn announcement(
    alloc: Global,
    own: &[Pair],
    other: &[Pair],
    all: bool,
) -> Result<Vec<Hash32>, AllocError> {
    let mut ids = Vec::new(alloc);
    for (id, short) in own {
        if all || !is_single(own, *short) || !is_single(other, *short) {
            ids.push(*id)?;
        }
    }
    Ok(ids)
}

/// The short ids that are asked for: those that stand once there and not here, ascending; or none, where all is announced.
pub fn asks_of(
    alloc: Global,
    ours: &[Pair],
    theirs: &[Pair],
    all: bool,
) -> Result<Vec<u32>, AllocError> {
    let mut asks = Vec::new(alloc);
    for (_, short) in theirs {
        if !all && is_single(theirs, *short) && !is_single(ours, *short) {
            asks.push(*short)?;
        }
    }
    asks.sort()?;
    Ok(asks)
}
