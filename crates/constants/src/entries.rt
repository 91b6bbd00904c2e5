//! Making an entry.

ghost use Rattle.std.specs.Prelude.{◌≡◌, ◌<◌, MatchOption, unsigned_abs};

use crate::entry::Entry;

/// The largest offset of an entry, to either side.
pub const LIMIT: u32 = 20_000;

impl Entry {
    /// The entry, or none where the offset is out of range.
    pub fn new(serial: u32, offset: i32) -> Option<Entry>
        ensures { MatchOption result (20000 < unsigned_abs offset) (λ e. (e.serial ≡ serial) × (e.offset ≡ offset)) }
    {
        if offset.unsigned_abs() > LIMIT {
            return None;
        }
        Some(Entry { serial, offset })
    }
}
