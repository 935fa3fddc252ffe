//! The five kernels with their data.
use crate::kernel::{Kernel, bytes_of, change_first};
use crate::plain;
use rm_base::Block;
use std::alloc::{AllocError, Global};

/// Sets bits in a list of which few are set.
#[derive(Drop)]
pub struct OrInto {
    to: Vec<u8>,
    from: Vec<u8>,
}

impl Kernel for OrInto {
    fn new(alloc: Global, size: usize) -> Result<Self, AllocError> {
        let to = bytes_of(alloc, size, 5)?;
        let from = bytes_of(alloc, size, 200)?;
        Ok(OrInto { to, from })
    }

    fn by_lanes(&mut self) {
        change_first(self.to.as_mut_slice());
        if self.to.len() == self.from.len() {
            rm_lanes::or_into(self.to.as_mut_slice(), self.from.as_slice());
        }
    }

    fn by_plain_loop(&mut self) {
        change_first(self.to.as_mut_slice());
        plain::or_into(self.to.as_mut_slice(), self.from.as_slice());
    }

    fn gave_the_same(&self, other: &Self) -> bool {
        self.to == other.to
    }
}

/// Adds up the counts of all runs.
#[derive(Drop)]
pub struct CountOnes {
    bits: Vec<u8>,
    count: u64,
}

impl Kernel for CountOnes {
    fn new(alloc: Global, size: usize) -> Result<Self, AllocError> {
        let bits = bytes_of(alloc, size, 200)?;
        Ok(CountOnes { bits, count: 0 })
    }

    fn by_lanes(&mut self) {
        change_first(self.bits.as_mut_slice());
        if self.bits.len() < 1 << 61 {
            let count = rm_lanes::count_ones(self.bits.as_slice());
            self.count = self.count.wrapping_add(count);
        }
    }

    fn by_plain_loop(&mut self) {
        change_first(self.bits.as_mut_slice());
        let count = plain::count_ones(self.bits.as_slice());
        self.count = self.count.wrapping_add(count);
    }

    fn gave_the_same(&self, other: &Self) -> bool {
        self.count == other.count
    }
}

/// Finds each set bit in turn, and adds up their places.
#[derive(Drop)]
pub struct NextSet {
    bits: Vec<u8>,
    places: usize,
}

impl Kernel for NextSet {
    fn new(alloc: Global, size: usize) -> Result<Self, AllocError> {
        let bits = bytes_of(alloc, size, 5)?;
        Ok(NextSet { bits, places: 0 })
    }

    fn by_lanes(&mut self) {
        change_first(self.bits.as_mut_slice());
        let mut from = 0;
        for _ in 0..self.bits.len() {
            if self.bits.len() < 1 << 61
                && let Some(place) = rm_lanes::next_set(self.bits.as_slice(), from)
            {
                self.places = self.places.wrapping_add(place);
                from = place.wrapping_add(1);
            } else {
                break;
            }
        }
    }

    fn by_plain_loop(&mut self) {
        change_first(self.bits.as_mut_slice());
        let mut from = 0;
        for _ in 0..self.bits.len() {
            if let Some(place) = plain::next_set(self.bits.as_slice(), from) {
                self.places = self.places.wrapping_add(place);
                from = place.wrapping_add(1);
            } else {
                break;
            }
        }
    }

    fn gave_the_same(&self, other: &Self) -> bool {
        self.places == other.places
    }
}

/// Counts the blocks that are zero. The others differ in their last byte alone.
#[derive(Drop)]
pub struct IsZero {
    blocks: Vec<Block>,
    count: u64,
}

impl Kernel for IsZero {
    fn new(alloc: Global, size: usize) -> Result<Self, AllocError> {
        let blocks = blocks_of(alloc, size)?;
        Ok(IsZero { blocks, count: 0 })
    }

    fn by_lanes(&mut self) {
        change_first_block(self.blocks.as_mut_slice());
        for block in self.blocks.iter() {
            self.count = self.count.wrapping_add(rm_lanes::is_zero(block) as u64);
        }
    }

    fn by_plain_loop(&mut self) {
        change_first_block(self.blocks.as_mut_slice());
        for block in self.blocks.iter() {
            self.count = self.count.wrapping_add(plain::is_zero(block) as u64);
        }
    }

    fn gave_the_same(&self, other: &Self) -> bool {
        self.count == other.count
    }
}

/// Counts the blocks that are the same as a zero block.
#[derive(Drop)]
pub struct Same {
    blocks: Vec<Block>,
    model: Block,
    count: u64,
}

impl Kernel for Same {
    fn new(alloc: Global, size: usize) -> Result<Self, AllocError> {
        let blocks = blocks_of(alloc, size)?;
        Ok(Same {
            blocks,
            model: Block([0; 64]),
            count: 0,
        })
    }

    fn by_lanes(&mut self) {
        change_first_block(self.blocks.as_mut_slice());
        for block in self.blocks.iter() {
            self.count = self
                .count
                .wrapping_add(rm_lanes::same(block, &self.model) as u64);
        }
    }

    fn by_plain_loop(&mut self) {
        change_first_block(self.blocks.as_mut_slice());
        for block in self.blocks.iter() {
            self.count = self
                .count
                .wrapping_add(plain::same(block, &self.model) as u64);
        }
    }

    fn gave_the_same(&self, other: &Self) -> bool {
        self.count == other.count
    }
}

// Blocks of zeros but for their last byte.
fn blocks_of(alloc: Global, size: usize) -> Result<Vec<Block>, AllocError> {
    let mut blocks = Vec::new(alloc);
    for byte in bytes_of(alloc, size, 128)? {
        let mut block = Block([0; 64]);
        block.0[63] = byte;
        blocks.push(block)?;
    }
    Ok(blocks)
}

fn change_first_block(blocks: &mut [Block]) {
    if let Some(block) = blocks.first_mut() {
        change_first(block.0.as_mut_slice());
    }
}
