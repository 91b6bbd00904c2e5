//! What undoing needs to know: what a serial had before a step that changed it.

ghost use Rattle.constants.specs.Books.{offset_in, was};
ghost use Rattle.constants.specs.Slips.{former_in, inverse, slip_for};
ghost use Rattle.std.specs.Prelude.{◌≡◌, Some};
ghost use Rattle.std.specs.Result.{result_ok};

use crate::command::Command;
use crate::entries::LIMIT;
use crate::entry::Entry;
use services::{NothingToUndo, Slip};

const WAS_ABSENT: u64 = 1;

const WAS_HELD: u64 = 2;

const POSITIVE: u64 = 0;

const NEGATIVE: u64 = 1;

/// The offset that the serial had, or none where it was not in the book.
#[derive(Clone, Copy, Debug, PartialEq, Eq)]
pub struct Former {
    pub offset: Option<i32>,
}

/// What a serial has before a step that changes it: its entry, or none.
impl From<Option<Entry>> for Former {
    ghost from_gives = { λ entry former. former ≡ was (offset_in entry) };

    fn from(entry: Option<Entry>) -> Former {
        Former {
            offset: entry.map(|entry| entry.offset),
        }
    }
}

/// The slip that tells it: whether the serial was held, the offset's size, its sign.
impl From<Former> for Slip {
    ghost from_gives = { λ former slip. slip ≡ slip_for (Some former) };

    fn from(former: Former) -> Slip {
        match former.offset {
            None => Slip {
                first: WAS_ABSENT,
                second: 0,
                third: 0,
            },
            Some(offset) => Slip {
                first: WAS_HELD,
                second: u64::from(offset.unsigned_abs()),
                third: if offset < 0 { NEGATIVE } else { POSITIVE },
            },
        }
    }
}

/// Reads a slip back, whoever wrote it. One that no change gives tells of none.
impl TryFrom<&Slip> for Former {
    type Error = NothingToUndo;

    ghost try_from_gives = { λ slip former. result_ok former ≡ former_in slip.now };

    fn try_from(slip: &Slip) -> Result<Former, NothingToUndo> {
        match slip.first {
            WAS_ABSENT => Ok(Former { offset: None }),
            WAS_HELD if slip.second <= u64::from(LIMIT) => {
                let size = slip.second as i32;
                let offset = if slip.third == NEGATIVE { -size } else { size };
                Ok(Former {
                    offset: Some(offset),
                })
            }
            _ => Err(NothingToUndo),
        }
    }
}

impl Former {
    /// The command that brings back what the serial had.
    pub fn inverse(self, serial: u32) -> Command
        ensures { result ≡ inverse serial self }
    {
        match self.offset {
            None => Command::Clear { serial },
            Some(offset) => Command::Set { serial, offset },
        }
    }
}
