//! Searching the places.

ghost use Rattle.std.specs.Prelude.{◌≡◌, length, None, MatchOption};
ghost use Rattle.constants_book.specs.Places.{Holds, OfSerial, PlaceFor, meaning, taken};

use crate::book::ConstantsBook;

impl ConstantsBook {
    /// The place that holds the serial.
    pub(crate) fn place_of(&self, serial: u32) -> Option<usize>
        ensures { MatchOption result (meaning self.now.places serial ≡ None) (Holds self.now.places (OfSerial serial)) }
    {
        self.places
            .iter()
            .position(|place| place.is_some_and(|entry| entry.serial == serial))
    }

    /// The first place without an entry.
    fn free_place(&self) -> Option<usize>
        ensures { MatchOption result (taken self.now.places ≡ length self.now.places) (Holds self.now.places (λ place. place ≡ None)) }
    {
        self.places.iter().position(|place| place.is_none())
    }

    /// A place for the serial: the one that holds it, or else a free one. There is none where all places hold other
    /// serials.
    #[tactic(auto, using(crate::proofs::Searches::place_or_free))]
    pub(crate) fn place_for(&self, serial: u32) -> Option<usize>
        ensures { MatchOption result ((meaning self.now.places serial ≡ None) × (taken self.now.places ≡ length self.now.places)) (Holds self.now.places (PlaceFor serial self.now.places)) }
    {
        self.place_of(serial).or_else(|| self.free_place())
    }
}
