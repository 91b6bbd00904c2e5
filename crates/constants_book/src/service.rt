//! The book as a service, and what people read of it.

ghost use Rattle.std.specs.Prelude.{◌≡◌, ℕ};
ghost use Rattle.constants.specs.Books.{Book, Carried, Undoes, answer, empty_book, restored, stepped};
ghost use Rattle.constants.specs.Commands.{command_of};
ghost use Rattle.constants.specs.Slips.{former_in};
ghost use Rattle.constants_book.specs.Places.{meaning};

use crate::book::ConstantsBook;
use constants::{Command, DONE, Former, Refusal};
use payload::Payload;
use services::{Service, Slip};

impl ConstantsBook {
    /// A new book has no entries.
    pub fn new() -> ConstantsBook
        ensures { meaning result.places ≡ empty_book }
    {
        ConstantsBook { places: [None; 64] }
    }

    /// The offset of an instrument in tenths of a millimetre, if the book has it.
    pub fn offset(&self, serial: u32) -> Option<i32>
        ensures { result ≡ meaning self.now.places serial }
    {
        let place = self.place_of(serial)?;
        self.places[place].map(|entry| entry.offset)
    }

    /// Carries out what the payload asks for, or says why not.
    fn step(&mut self, payload: &Payload) -> Result<Former, Refusal>
        ensures { Carried (meaning self.old.places) (command_of payload.now) result (meaning self.new.places) }
    {
        self.carry_out(Command::try_from(payload)?)
    }
}

impl Service for ConstantsBook {
    ghost State = { Book };

    ghost state = { λ book. meaning book.places };

    ghost step = { stepped };

    ghost result_of = { answer };

    ghost undoes = { Undoes };

    fn apply(&mut self, payload: &Payload) -> (u64, Slip) {
        match self.step(payload) {
            Ok(former) => (DONE, former.into()),
            Err(refusal) => (refusal.into(), Slip::default()),
        }
    }

    /// Carries out the inverse command that the slip tells of, whoever wrote the slip.
    fn undo(&mut self, payload: &Payload, slip: &Slip)
        ensures exact { (f : Book) → meaning self.old.places ≡ stepped f payload.now → Undoes f payload.now slip.now → meaning self.new.places ≡ f }
        ensures restores { meaning self.new.places ≡ restored (meaning self.old.places) (command_of payload.now) (former_in slip.now) }
    {
        if let (Ok(command), Ok(former)) = (Command::try_from(payload), Former::try_from(slip)) {
            let _ = self.carry_out(former.inverse(command.serial()));
        }
    }
}
