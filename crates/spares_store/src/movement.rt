//! What a payload asks of the store.

ghost use Rattle.std.specs.Prelude.{◌≡◌, ◌<◌, IfOk};
ghost use Rattle.std.specs.Result.{result_ok};
ghost use Rattle.spares_store.specs.Movements.{direction_of, movement_of};
ghost use Rattle.spares_store.specs.Outcomes.{after_moving};

use crate::refusal::Refusal;
use payload::Payload;
use services::{WrongPayload, is_all_zero};

/// Parts are numbered from 0 up to this, which is none.
pub const PARTS: u8 = 32;

/// The most pieces that a stock can have.
pub const FULL_STOCK: u16 = 60_000;

const TAKE_IN: u8 = 3;

const HAND_OUT: u8 = 4;

const NONE: u16 = 0;

#[derive(Clone, Copy, Debug, PartialEq, Eq)]
pub enum Direction {
    In,
    Out,
}

/// So many pieces of a part go in or out.
#[derive(Clone, Copy, Debug, PartialEq, Eq)]
pub struct Movement {
    pub direction: Direction,
    pub part: u8,
    pub quantity: u16,
}

impl TryFrom<u8> for Direction {
    type Error = WrongPayload;

    ghost try_from_gives = { λ mark direction. result_ok direction ≡ direction_of mark };

    fn try_from(mark: u8) -> Result<Direction, WrongPayload> {
        match mark {
            TAKE_IN => Ok(Direction::In),
            HAND_OUT => Ok(Direction::Out),
            _ => Err(WrongPayload),
        }
    }
}

/// Reads a mark, a part, a quantity of at least one, and nothing else.
impl TryFrom<&Payload> for Movement {
    type Error = WrongPayload;

    ghost try_from_gives = { λ payload movement. (result_ok movement ≡ movement_of payload.now) × IfOk movement (λ m. m.part < 32) };

    fn try_from(payload: &Payload) -> Result<Movement, WrongPayload> {
        let bytes = payload.bytes;
        let part = bytes[1];
        let quantity = u16::from_be_bytes([bytes[2], bytes[3]]);
        if part >= PARTS || quantity == NONE || !is_all_zero(&bytes[4..16]) {
            return Err(WrongPayload);
        }
        let direction = Direction::try_from(bytes[0])?;
        Ok(Movement {
            direction,
            part,
            quantity,
        })
    }
}

impl Movement {
    /// The stock that a stock becomes.
    pub fn moved(self, stock: u16) -> Result<u16, Refusal>
        ensures { result ≡ after_moving self.direction stock self.quantity }
    {
        match self.direction {
            Direction::In => stock
                .checked_add(self.quantity)
                .filter(|&sum| sum <= FULL_STOCK)
                .ok_or(Refusal::TooMany),
            Direction::Out => stock.checked_sub(self.quantity).ok_or(Refusal::TooFew),
        }
    }
}
