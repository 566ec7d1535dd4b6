//! Maps of words of 32 bits that keep exclusive ors: by what they give for each value of each nibble.

ghost use Rattle.std.specs.Prelude.{◌≡◌, ℕ, ◌*◌, ◌/◌, ◌%◌, ◌<◌, ◌^◌};
ghost use Rattle.field_core.specs.LinearMaps.{IsLinear, AreTablesOf};

/// What a map gives for each value of each nibble, where nibble 0 is the lowest.
pub type NibbleTables = [[u32; 16]; 8];

/// What the map of these tables gives for `a`: eight loads.
pub fn image(tables: &NibbleTables, a: u32) -> u32
    ensures { (f : ℕ → ℕ) → IsLinear f → AreTablesOf f tables.now → result ≡ f a }
{
    let t = tables;
    let low = (t[0][nibble(a, 0)] ^ t[1][nibble(a, 1)]) ^ (t[2][nibble(a, 2)] ^ t[3][nibble(a, 3)]);
    let high = (t[4][nibble(a, 4)] ^ t[5][nibble(a, 5)])
        ^ (t[6][nibble(a, 6)] ^ t[7][nibble(a, 7)]);
    low ^ high
}

/// Nibble i of `a`, where 0 is the lowest.
pub fn nibble(a: u32, i: u32) -> usize
    requires { i < 8 }
    ensures value { result ≡ a / 2 ^ (4 * i) % 16 }
    ensures below { result < 16 }
{
    ((a >> (4 * i)) & 15) as usize
}
