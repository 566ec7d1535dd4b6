//! Ids, keys and short ids.

ghost use Rattle.std.specs.Prelude.{◌≡◌};
ghost use Rattle.id_rules.specs.Ids as spec;
ghost use Rattle.id_rules.specs.Ids.{keys_of};
ghost use Rattle.short_ids.specs.States.{pair_of};

use crate::sip24;
use base_types::Hash32;
use sha2::{Digest, Sha256};

/// The two words of a key of SipHash.
#[derive(Clone, Copy, Debug, PartialEq, Eq)]
pub struct Keys {
    pub k0: u64,
    pub k1: u64,
}

impl Keys {
    /// The key that both nodes have of their two salts (BIP 330, sendtxrcncl).
    #[tactic(auto, unfolding(id_rules::specs::Ids::keys_of))]
    pub fn from_salts(a: u64, b: u64) -> Keys
        ensures { pair_of result ≡ keys_of a b }
    {
        let (low, high) = if a <= b { (a, b) } else { (b, a) };
        key_in(salted_hash(low, high))
    }
}

/// The hash of two salts, tagged as BIP 340 tags hashes.
#[tactic(auto, unfolding(id_rules::specs::Ids::salted_hash, id_rules::specs::Ids::salting_tag))]
fn salted_hash(low: u64, high: u64) -> [u8; 32]
    ensures { result ≡ spec.salted_hash low high }
{
    let tag = Sha256::digest(b"Tx Relay Salting");
    let mut hasher = Sha256::new();
    hasher.update(&tag);
    hasher.update(&tag);
    hasher.update(&low.to_le_bytes());
    hasher.update(&high.to_le_bytes());
    hasher.finalize()
}

/// The key of the first 16 bytes of a hash, the lowest byte of each word first.
#[tactic(auto, unfolding(id_rules::specs::Ids::key_in))]
fn key_in(hash: [u8; 32]) -> Keys
    ensures { pair_of result ≡ spec.key_in hash }
{
    let [
        a0,
        a1,
        a2,
        a3,
        a4,
        a5,
        a6,
        a7,
        b0,
        b1,
        b2,
        b3,
        b4,
        b5,
        b6,
        b7,
        ..
    ] = hash;
    Keys {
        k0: u64::from_le_bytes([a0, a1, a2, a3, a4, a5, a6, a7]),
        k1: u64::from_le_bytes([b0, b1, b2, b3, b4, b5, b6, b7]),
    }
}

/// The short id of a transaction under a key (BIP 330, short ID computation), which is never 0.
#[tactic(auto, unfolding(id_rules::specs::Ids::short_id))]
pub fn short_id(keys: &Keys, id: &Hash32) -> u32
    ensures { result ≡ spec.short_id (pair_of keys.now) id.now }
{
    1 + (sip24(keys.k0, keys.k1, &id.0) % 0xffff_ffff) as u32
}

/// The id of a transaction: the double SHA-256 of its bytes with witness, in stored order (BIP 141, transaction ID).
pub fn wtxid(tx: &[u8]) -> Hash32
    ensures { result ≡ spec.wtxid tx.now }
{
    Hash32(Sha256::digest(&Sha256::digest(tx)))
}
