//! Numbers that look drawn, each set of them made from one number.
ghost use Rattle.std.specs.Prelude.{◌<◌};

/// What the next draw goes on from.
#[derive(Clone, Copy)]
pub struct Draws {
    pub number: u64,
}

impl Draws {
    /// A number below `bound`.
    pub fn below(&mut self, bound: u32) -> u32
        requires { 0 < bound }
        ensures { result < bound }
    {
        self.number = self
            .number
            .wrapping_mul(2862933555777941757)
            .wrapping_add(3037000493);
        (self.number >> 32) as u32 % bound
    }

    /// A number of `low` up to, and without, the `count`th from there on.
    pub fn scn(&mut self, low: u64, count: u32) -> u64
        requires { 0 < count }
    {
        low.saturating_add(u64::from(self.below(count)))
    }
}
