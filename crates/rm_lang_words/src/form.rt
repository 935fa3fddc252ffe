//! What the words of a program may say.

/// What the value of an option is.
#[derive(Clone, Copy)]
pub enum Kind {
    /// Any text.
    Text,
    /// Decimal digits that spell a number from `low` to `high`. Leading zeros are allowed.
    Number { low: u64, high: u64 },
    /// None: the option is a flag, that is given or not.
    Flag,
}

/// An option that may be given.
#[derive(Clone, Copy)]
pub struct Entry {
    pub name: &'static str,
    /// Whether it has to be given.
    pub needed: bool,
    pub kind: Kind,
}
