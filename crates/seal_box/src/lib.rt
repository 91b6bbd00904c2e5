// What a seal box means. A box can seal a statement under its own number, and say of a tag whether it is a signer's
// genuine seal of a statement. How it does that is the box's own affair: whatever uses one is generic over this trait.
#![tactic(auto)]

ghost use Rattle.std.specs.Prelude.{ℕ, Bool, true, List, ◌≡◌};

pub mod secret;

pub trait SealBox {
    // is this a genuine tag of this signer for this statement?
    ghost genuine: { Self → ℕ → List ℕ → ℕ → Bool };

    // the number that the box seals under
    ghost own: { Self → ℕ };

    // the tag that the box gives a statement
    ghost tag: { Self → List ℕ → ℕ };

    fn own(&self) -> u16
        ensures { result ≡ own self.now };

    fn ask(&self, signer: u16, statement: &[u8], seal: u64) -> bool
        ensures { result ≡ genuine self.now signer statement.now seal };

    fn seal(&self, statement: &[u8]) -> u64
        ensures { result ≡ tag self.now statement.now };

    // the tag that a box gives is genuine under its own number
    ghost seals: { (b : Self) (statement : List ℕ) → genuine b (own b) statement (tag b statement) ≡ true };
}

// Whatever box it is: what it seals, it finds genuine.
pub fn seals_genuinely<B: SealBox>(seals: &B, statement: &[u8]) -> bool
    ensures { result ≡ true }
{
    seals.ask(seals.own(), statement, seals.seal(statement))
}
