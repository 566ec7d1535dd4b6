//! How many bytes a sketch has.

ghost use Rattle.std.specs.Prelude.{◌↔◌, IsTrue};
ghost use Rattle.erlay_c.specs.Answers.{IsSketchSize};

use sketch_rules::MAX_SKETCH_BYTES;

/// Whether a sketch may have so many bytes.
pub(crate) fn is_sketch_size(size: usize) -> bool
    ensures { IsTrue result ↔ IsSketchSize size }
{
    1 <= size && size <= MAX_SKETCH_BYTES && size % 4 == 0
}
