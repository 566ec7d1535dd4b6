//! Sequences of functions on a set.

ghost use Rattle.std.specs.Prelude.{◌≡◌};

use field_core::Field;
use std::marker::Model;

/// The sequence of a function on a set. A contract sees it as the list of its items.
#[derive(Drop)]
pub struct Sequence<F: Field> {
    items: Vec<F>,
}

impl<F: Field> Model for Sequence<F> {
    ghost use Rattle.std.specs.Prelude.{List};

    ghost Value = { List F };

    ghost view = { λ s. s.items.items };
}

impl<F: Field> Sequence<F> {
    /// The sequence of these items.
    pub fn new(items: Vec<F>) -> Sequence<F>
        ensures { result ≡ items.items }
    {
        Sequence { items }
    }

    /// Its items.
    pub fn as_slice(&self) -> &[F]
        ensures { result.now ≡ self.now }
    {
        self.items.as_slice()
    }
}
