//! The gate of the program.
use rm_channel::{Gate, Point};

/// A gate that holds nobody.
#[derive(Clone, Copy)]
pub struct OpenGate;

impl Gate for OpenGate {
    fn at(&self, _: Point) {}
}
