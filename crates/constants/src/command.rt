//! What a payload asks of the book.

ghost use Rattle.constants.specs.Commands.{command_of, serial_in};
ghost use Rattle.std.specs.Prelude.{◌≡◌};
ghost use Rattle.std.specs.Result.{result_ok};

use payload::Payload;
use services::{WrongPayload, is_all_zero};

const SET: u8 = 1;

const CLEAR: u8 = 2;

const NO_OFFSET: i32 = 0;

/// To set an instrument's offset, in tenths of a millimetre, or to clear it.
#[derive(Clone, Copy, Debug, PartialEq, Eq)]
pub enum Command {
    Set { serial: u32, offset: i32 },
    Clear { serial: u32 },
}

/// Reads a mark, a serial, seven zero bytes and an offset, which is 0 for clearing.
impl TryFrom<&Payload> for Command {
    type Error = WrongPayload;

    ghost try_from_gives = { λ payload command. result_ok command ≡ command_of payload.now };

    fn try_from(payload: &Payload) -> Result<Command, WrongPayload> {
        let bytes = payload.bytes;
        if !is_all_zero(&bytes[5..12]) {
            return Err(WrongPayload);
        }
        let serial = u32::from_be_bytes([bytes[1], bytes[2], bytes[3], bytes[4]]);
        let offset = i32::from_be_bytes([bytes[12], bytes[13], bytes[14], bytes[15]]);
        match bytes[0] {
            SET => Ok(Command::Set { serial, offset }),
            CLEAR if offset == NO_OFFSET => Ok(Command::Clear { serial }),
            _ => Err(WrongPayload),
        }
    }
}

impl Command {
    /// The serial that it is about.
    pub fn serial(self) -> u32
        ensures { result ≡ serial_in self }
    {
        match self {
            Command::Set { serial, .. } => serial,
            Command::Clear { serial } => serial,
        }
    }
}
