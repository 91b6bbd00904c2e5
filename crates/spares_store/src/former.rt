//! What undoing needs to know: the stock that a part had.

ghost use Rattle.std.specs.Prelude.{◌≡◌, ◌<◌, ◌≤◌, Some, IfOk};
ghost use Rattle.std.specs.Result.{result_ok};
ghost use Rattle.spares_store.specs.Slips.{former_in, slip_for};

use crate::movement::{FULL_STOCK, PARTS};
use services::{NothingToUndo, Slip};

const STOCK_CHANGED: u64 = 1;

/// A part, and the stock that it had before a step.
#[derive(Clone, Copy, Debug, PartialEq, Eq)]
pub struct Former {
    pub part: u8,
    pub stock: u16,
}

/// The slip of a step that changed this stock.
impl From<Former> for Slip {
    ghost from_gives = { λ former slip. slip ≡ slip_for (Some former) };

    fn from(former: Former) -> Slip {
        Slip {
            first: STOCK_CHANGED,
            second: u64::from(former.part),
            third: u64::from(former.stock),
        }
    }
}

/// Reads a slip back, whoever wrote it. One that no step of a store gives changes nothing.
impl TryFrom<&Slip> for Former {
    type Error = NothingToUndo;

    ghost try_from_gives = { λ slip former. (result_ok former ≡ former_in slip.now) × IfOk former (λ f. (f.part < 32) × (f.stock ≤ 60000)) };

    fn try_from(slip: &Slip) -> Result<Former, NothingToUndo> {
        if slip.first != STOCK_CHANGED
            || slip.second >= u64::from(PARTS)
            || slip.third > u64::from(FULL_STOCK)
        {
            return Err(NothingToUndo);
        }
        Ok(Former {
            part: slip.second as u8,
            stock: slip.third as u16,
        })
    }
}
