//! A value with its bytes.
use rm_base::Seq;
use std::alloc::{AllocError, Global};
use std::io;

/// What some runs gave, and how long the shortest of them took.
#[derive(Drop)]
pub struct Shortest<T> {
    pub made: T,
    pub micros: u128,
}

/// A value that is written as bytes and read from them.
pub trait Format: Sized + Drop {
    /// A valid value with so many rows or records, at most 65,536.
    fn new(alloc: Global, rows: u32) -> Result<Self, AllocError>;

    /// Its bytes, made so many times. None where it is not valid or memory is wanting.
    fn encode(&self, rt: &HostRuntime, times: u32) -> io::Result<Shortest<Option<Seq<u8>>>>;

    /// The value of the bytes, read so many times. None where they are refused or memory is wanting.
    fn decode(rt: &HostRuntime, bytes: &[u8], times: u32) -> io::Result<Shortest<Option<Self>>>;
}
