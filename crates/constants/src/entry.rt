//! One line of the book.

ghost use Rattle.std.specs.Prelude.{◌^◌, ◌<◌, ◌≤◌};
ghost use Rattle.constants.specs.Ranges.{InRange};

/// An instrument's offset in tenths of a millimetre. No entry is outside ±20,000: such a value cannot be made.
#[derive(Clone, Copy, Debug, PartialEq, Eq)]
pub struct Entry {
    pub serial: u32,
    pub offset: i32,
    ghost ranged: { InRange offset },
    ghost numbered: { serial < 2 ^ 32 },
}
