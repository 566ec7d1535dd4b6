//! SipHash-2-4.

ghost use Rattle.std.specs.Prelude.{◌≡◌, ◌<◌, [], ◌∷◌, length};
ghost use Rattle.id_rules.specs.SipHash as spec;
ghost use Rattle.short_ids.specs.States.{state_of};

/// The inner state.
#[derive(Clone, Copy)]
struct State {
    v0: u64,
    v1: u64,
    v2: u64,
    v3: u64,
}

/// Half of a round, which turns by `r` and by `t` bits.
#[tactic(auto, unfolding(id_rules::specs::SipHash::half_round))]
fn half_round(s: State, r: u32, t: u32) -> State
    ensures { state_of result ≡ spec.half_round r t (state_of s) }
{
    let low = s.v0.wrapping_add(s.v1);
    let high = s.v2.wrapping_add(s.v3);
    State {
        v0: high,
        v1: s.v1.rotate_left(r) ^ low,
        v2: low.rotate_left(32),
        v3: s.v3.rotate_left(t) ^ high,
    }
}

/// One round.
fn round(s: State) -> State
    ensures { state_of result ≡ spec.sip_round (state_of s) }
{
    half_round(half_round(s, 13, 16), 17, 21)
}

/// The state for a key.
fn start(k0: u64, k1: u64) -> State
    ensures { state_of result ≡ spec.sip_start k0 k1 }
{
    State {
        v0: k0 ^ 0x736f_6d65_7073_6575,
        v1: k1 ^ 0x646f_7261_6e64_6f6d,
        v2: k0 ^ 0x6c79_6765_6e65_7261,
        v3: k1 ^ 0x7465_6462_7974_6573,
    }
}

/// The state behind one word of the message more.
#[tactic(auto, unfolding(id_rules::specs::SipHash::after_word))]
fn after_word(mut s: State, word: u64) -> State
    ensures { state_of result ≡ spec.after_word (state_of s) word }
{
    s.v3 ^= word;
    let mut s = round(round(s));
    s.v0 ^= word;
    s
}

/// The last word: the bytes that are left, fewer than 8, and the length of the message, of which the lowest byte stands
/// highest.
fn last_word(rest: &[u8], len: usize) -> u64
    requires { length rest.now < 8 }
    ensures { spec.words_of len rest.now ≡ result ∷ [] }
{
    let mut bytes = [0; 8];
    bytes[..rest.len()].copy_from_slice(rest);
    bytes[7] = (len % 256) as u8;
    u64::from_le_bytes(bytes)
}

/// What a state that has taken the whole message answers.
#[tactic(auto, unfolding(id_rules::specs::SipHash::sip_digest))]
fn digest(mut s: State) -> u64
    ensures { result ≡ spec.sip_digest (state_of s) }
{
    s.v2 ^= 0xff;
    let s = round(round(round(round(s))));
    (s.v0 ^ s.v1) ^ (s.v2 ^ s.v3)
}

/// SipHash-2-4 of `bytes` under the key of the words `k0` and `k1`, as Aumasson and Bernstein define it (SipHash: a fast
/// short-input PRF, section 2).
pub fn sip24(k0: u64, k1: u64, bytes: &[u8]) -> u64
    ensures { result ≡ spec.sip24 k0 k1 bytes.now }
{
    let mut state = start(k0, k1);
    let mut rest = bytes;
    while let Some((word, behind)) = rest.split_first_chunk::<8>() {
        state = after_word(state, u64::from_le_bytes(*word));
        rest = behind;
    }
    digest(after_word(state, last_word(rest, bytes.len())))
}
