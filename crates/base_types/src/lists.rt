//! Lists that contracts see as lists.

ghost use Rattle.std.specs.Prelude.{◌≡◌};

use std::marker::Model;

/// 32 bytes of a double SHA-256, in stored order.
#[derive(Clone, Copy, Debug, PartialEq, Eq, PartialOrd, Ord, Hash)]
pub struct Hash32(pub [u8; 32]);

/// A list of plain items. A contract sees it as the list of its items.
#[derive(Debug, Drop)]
pub struct Elems<T: Copy> {
    items: Vec<T>,
}

impl<T: Copy> Model for Elems<T> {
    ghost use Rattle.std.specs.Prelude.{List};

    ghost Value = { List T };

    ghost view = { λ e. e.items.items };
}

impl<T: Copy> Elems<T> {
    /// The items of `items`, in order. Takes no memory beyond it.
    pub fn from_vec(items: Vec<T>) -> Self
        ensures { result ≡ items.items }
    {
        Elems { items }
    }

    /// The items, in order.
    pub fn as_slice(&self) -> &[T]
        ensures { result.now ≡ self.now }
    {
        self.items.as_slice()
    }
}

/// Bytes.
pub type Bytes = Elems<u8>;

/// Ids, in order.
pub type Hashes = Elems<Hash32>;

/// Short ids, in order.
pub type Shorts = Elems<u32>;
