//! What holds of every book of constants, in the words of those who use one.

ghost use Rattle.constants.specs.Rules.{BookRules};

/// Only the result 0 changes a book, and it changes one serial's line; an offset out of range and a clearing with an
/// offset have the result 2; a serial that is held has a place; a book that is sound stays so.
pub fn book_rules()
    ensures { BookRules }
{}
