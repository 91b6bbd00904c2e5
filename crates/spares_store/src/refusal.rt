//! Why no stock changes, and the number that is answered then.

ghost use Rattle.spares_store.specs.Outcomes.{number};
ghost use Rattle.spares_store.specs.declared.refusal.Refusal.TheVariants.{WrongPayload};
ghost use Rattle.std.specs.Prelude.{◌≡◌, Err};

const TOO_FEW: u64 = 100_000;

const TOO_MANY: u64 = 100_001;

const WRONG_PAYLOAD: u64 = 100_002;

#[derive(Clone, Copy, Debug, PartialEq, Eq)]
pub enum Refusal {
    /// The stock has fewer pieces than are to be handed out.
    TooFew,
    /// The stock would be more than full.
    TooMany,
    /// The payload is no movement that a store knows.
    WrongPayload,
}

impl From<services::WrongPayload> for Refusal {
    ghost from_gives = { λ _ refusal. refusal ≡ WrongPayload };

    fn from(_: services::WrongPayload) -> Refusal {
        Self::WrongPayload
    }
}

/// The result that the service answers.
impl From<Refusal> for u64 {
    ghost from_gives = { λ refusal n. n ≡ number (Err refusal) };

    fn from(refusal: Refusal) -> u64 {
        match refusal {
            Refusal::TooFew => TOO_FEW,
            Refusal::TooMany => TOO_MANY,
            Refusal::WrongPayload => WRONG_PAYLOAD,
        }
    }
}
