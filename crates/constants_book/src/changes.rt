//! Changing the book by a command.

ghost use Rattle.constants.specs.Books.{Carried};
ghost use Rattle.constants.specs.declared.command.Command.TheVariants.{Clear, Set};
ghost use Rattle.constants_book.specs.Places.{meaning};
ghost use Rattle.std.specs.Prelude.{Some};

use crate::book::ConstantsBook;
use constants::{Command, Entry, Former, Refusal};

impl ConstantsBook {
    /// Carries out a command, or says why not.
    pub(crate) fn carry_out(&mut self, command: Command) -> Result<Former, Refusal>
        ensures { Carried (meaning self.old.places) (Some command) result (meaning self.new.places) }
    {
        match command {
            Command::Set { serial, offset } => self.set(serial, offset),
            Command::Clear { serial } => self.clear(serial),
        }
    }

    fn set(&mut self, serial: u32, offset: i32) -> Result<Former, Refusal>
        ensures { Carried (meaning self.old.places) (Some (Set serial offset)) result (meaning self.new.places) }
    {
        let entry = Entry::new(serial, offset).ok_or(Refusal::WrongPayload)?;
        let place = self.place_for(serial).ok_or(Refusal::NoPlace)?;
        let former = self.places[place];
        self.places[place] = Some(entry);
        Ok(former.into())
    }

    #[tactic(auto, using(crate::proofs::Carrying::clear_done))]
    fn clear(&mut self, serial: u32) -> Result<Former, Refusal>
        ensures { Carried (meaning self.old.places) (Some (Clear serial)) result (meaning self.new.places) }
    {
        let place = self.place_of(serial).ok_or(Refusal::Absent)?;
        let former = self.places[place];
        self.places[place] = None;
        Ok(former.into())
    }
}
