//! Random numbers.

ghost use Rattle.std.specs.Prelude.{◌<◌};

/// Random numbers, by the linear congruence with the constants of Knuth's MMIX.
#[derive(Drop)]
pub(crate) struct Random(pub(crate) u64);

impl Random {
    /// The next one, of 32 bits.
    pub(crate) fn next(&mut self) -> u64 {
        self.0 = self
            .0
            .wrapping_mul(6_364_136_223_846_793_005)
            .wrapping_add(1_442_695_040_888_963_407);
        self.0 >> 32
    }

    /// The next one below a bound.
    pub(crate) fn below(&mut self, bound: u64) -> u64
        requires { 0 < bound }
    {
        self.next() % bound
    }

    /// How many bytes are delivered: none to all of a frame's heading in two of three cases, and else a multiple of 97 below
    /// 3,104.
    pub(crate) fn cut(&mut self) -> u64 {
        match self.below(3) {
            0 | 1 => self.below(25),
            _ => 97 * (self.next() >> 27),
        }
    }
}
