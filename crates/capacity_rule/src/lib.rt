//! How large a round's first sketch is, and the coefficient of the next round. No call refuses, and none takes memory.
#![tactic(auto)]

ghost use Rattle.std.specs.Prelude.{◌≡◌, ◌≤◌};
ghost use Rattle.pool_rules.specs.Capacity.{capacity as capacity_for, next_q as coefficient_after, next_q_failed as coefficient_after_fallback};
ghost use Rattle.pool_rules.specs.declared.limits.TheConstants.{POOL_LIMIT};

#[cfg(test)]
mod tests;

use pool_rules::{FIRST_LIMIT, LEAST_CAPACITY};

/// The capacity of a round's first sketch, between 8 and 1,024: the opener's set has `size` members, the accepter's
/// `local`, and `q` is the coefficient of the request, in parts of 32,767.
pub fn capacity(size: u16, local: u32, q: u16) -> u32
    ensures value { result ≡ capacity_for size local q }
    ensures enough { LEAST_CAPACITY ≤ result }
    ensures limited { result ≤ FIRST_LIMIT }
{
    let size = u64::from(size);
    let local = u64::from(local);
    let replaced = u64::from(q) * size.min(local) / 32_767;
    let expected = size.abs_diff(local) + replaced + 1;
    expected.clamp(u64::from(LEAST_CAPACITY), u64::from(FIRST_LIMIT)) as u32
}

/// The coefficient of the next round behind an answered one: the opener has sketched `own` members, of which the accepter
/// lacks `mine`, and was told of `asks` that it lacks itself.
pub fn next_q(mine: u32, asks: u32, own: u32) -> u16
    requires subset { mine ≤ own }
    requires few { own ≤ POOL_LIMIT }
    requires few_asks { asks ≤ POOL_LIMIT }
    ensures value { result ≡ coefficient_after mine asks own }
    ensures limited { result ≤ 65_534 }
{
    let peer = own - mine + asks;
    let least = own.min(peer);
    if least == 0 {
        return 0;
    }
    (2 * mine.min(asks) * 32_767).div_ceil(least) as u16
}

/// The coefficient of the next round behind one with the coefficient `q` that fell back.
pub fn next_q_failed(q: u16) -> u16
    ensures value { result ≡ coefficient_after_fallback q }
    ensures limited { result ≤ 65_534 }
{
    (2 * u32::from(q) + 1).min(65_534) as u16
}
