//! Why a book does not change, and the number that is answered then.

ghost use Rattle.constants.specs.Results.{number};
ghost use Rattle.constants.specs.declared.refusal.Refusal.TheVariants.{WrongPayload};
ghost use Rattle.std.specs.Prelude.{◌≡◌, Err};

/// The result of a change.
pub const DONE: u64 = 0;

const NO_PLACE: u64 = 1;

const WRONG_PAYLOAD: u64 = 2;

const ABSENT: u64 = 3;

#[derive(Clone, Copy, Debug, PartialEq, Eq)]
pub enum Refusal {
    /// All places hold other serials.
    NoPlace,
    /// The payload is no command that a book knows.
    WrongPayload,
    /// The serial to clear is not in the book.
    Absent,
}

impl From<services::WrongPayload> for Refusal {
    ghost from_gives = { λ _ refusal. refusal ≡ WrongPayload };

    fn from(_: services::WrongPayload) -> Refusal {
        Self::WrongPayload
    }
}

/// The result that the service answers.
impl From<Refusal> for u64 {
    ghost from_gives = { λ refusal n. n ≡ number (Err refusal) };

    fn from(refusal: Refusal) -> u64 {
        match refusal {
            Refusal::NoPlace => NO_PLACE,
            Refusal::WrongPayload => WRONG_PAYLOAD,
            Refusal::Absent => ABSENT,
        }
    }
}
