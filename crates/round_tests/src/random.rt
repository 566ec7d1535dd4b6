//! Random pairs, of which two have one short id.

use crate::made::Pair;
use base_types::Hash32;
use std::alloc::{AllocError, Global};

/// Random numbers.
#[derive(Drop)]
pub struct Random(pub u64);

impl Random {
    /// The next one, which isn't 0.
    fn next(&mut self) -> u32 {
        self.0 = self
            .0
            .wrapping_mul(0x5851_f42d_4c95_7f2d)
            .wrapping_add(0x1405_7b7e_f767_814f);
        (self.0 >> 32) as u32 | 1
    }

    /// A pair with this short id.
    fn pair_with(&mut self, short: u32) -> Pair {
        let mut id = [0; 32];
        for place in id.iter_mut() {
            *place = (self.next() >> 24) as u8;
        }
        (Hash32(id), short)
    }

    /// So many pairs.
    pub fn pairs(&mut self, alloc: Global, count: usize) -> Result<Vec<Pair>, AllocError> {
        let mut pairs = Vec::new(alloc);
        for _ in 0..count {
            let short = self.next();
            pairs.push(self.pair_with(short))?;
        }
        Ok(pairs)
    }

    /// What a side has: these pairs that it shares, so many of its own, and two with one short id.
    pub fn side(
        &mut self,
        alloc: Global,
        shared: &[Pair],
        own: usize,
    ) -> Result<Vec<Pair>, AllocError> {
        let mut pairs = self.pairs(alloc, own)?;
        let short = self.next();
        pairs.push(self.pair_with(short))?;
        pairs.extend_from_slice(shared)?;
        pairs.push(self.pair_with(short))?;
        Ok(pairs)
    }
}
