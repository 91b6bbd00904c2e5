// What a secret means: it gives each statement a tag, always the same one.
ghost use Rattle.std.specs.Prelude.{ℕ, List, ◌≡◌};

pub trait Secret: Copy {
    // the tag that the secret gives a statement
    ghost tag_of: { Self → List ℕ → ℕ };

    fn tag(&self, statement: &[u8]) -> u64
        ensures { result ≡ tag_of self.now statement.now };
}
