//! Why a call was refused.

ghost use Rattle.std.specs.Prelude.{◌≡◌};

use base_types::OutOfMemory;

/// What a call answers that did its work.
pub(crate) const DONE: u32 = 0;

/// Why a call was refused.
#[derive(Clone, Copy, Debug, PartialEq, Eq)]
pub(crate) enum Refusal {
    /// No sketch has this capacity.
    CapacityOutOfRange,
    /// No sketch has so many bytes.
    SketchSize,
    /// Two sketches of different sizes.
    SizesDiffer,
    /// An element is 0.
    ZeroElement,
    /// An element comes twice.
    RepeatedElement,
    /// The buffer is shorter than what is to be written.
    BufferTooShort,
    /// No set of at most as many elements as the capacity has the sketch.
    NoSet,
    /// Memory ran out.
    OutOfMemory,
}

impl Refusal {
    ghost use Rattle.erlay_c.specs.Codes.{number_of};

    /// The code that the call answers.
    pub(crate) fn number(self) -> u32
        ensures { result ≡ number_of self }
    {
        match self {
            Refusal::CapacityOutOfRange => 1,
            Refusal::SketchSize => 2,
            Refusal::SizesDiffer => 3,
            Refusal::ZeroElement => 4,
            Refusal::RepeatedElement => 5,
            Refusal::BufferTooShort => 6,
            Refusal::NoSet => 7,
            Refusal::OutOfMemory => 8,
        }
    }
}

impl From<OutOfMemory> for Refusal {
    ghost use Rattle.erlay_c.specs.declared.refusal.Refusal.TheVariants as refusal;

    ghost from_gives = { λ _ refused. refused ≡ refusal.OutOfMemory };

    fn from(_error: OutOfMemory) -> Refusal {
        Refusal::OutOfMemory
    }
}
