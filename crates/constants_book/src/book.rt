//! The book itself.

ghost use Rattle.constants_book.specs.Places.{apart};
ghost use Rattle.std.specs.Prelude.{◌≡◌, true, length};

use constants::Entry;

/// 64 places, each with an entry or free. No serial stands in two of them. There is no `Model`: books of equal meaning can
/// have their entries in different places, and of a `Copy` type the fields must be got back from the meaning.
#[derive(Clone, Copy)]
pub struct ConstantsBook {
    pub(crate) places: [Option<Entry>; 64],
    ghost distinct: { apart places ≡ true },
    ghost sized: { length places ≡ 64 },
}
