//! What the decoding of a sketch answers.

use base_types::Elems;
use field_core::Field;

/// What the decoding of a sketch answers.
#[derive(Debug, Drop)]
pub enum Decoded<F: Field> {
    /// The set that has the sketch, ascending.
    Found(Elems<F>),
    /// No set of at most as many elements as the capacity has the sketch.
    NoSet,
}
