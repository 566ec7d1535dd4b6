//! Finite fields of characteristic 2: what generic code asks of a field, and the field of 2 ^ 32 elements.
#![tactic(auto)]

mod carryless;
mod field;
mod gf32;
mod linear_maps;
mod nibble_tables;
mod roots;
#[cfg(test)]
mod tests;

pub use carryless::{
    WindowTable, carryless_product, product, product_by_windows, reduce, window_table,
};
pub use field::Field;
pub use gf32::Gf32;
pub use linear_maps::{NibbleTables, image, nibble};
pub use roots::artin_schreier_candidate;
