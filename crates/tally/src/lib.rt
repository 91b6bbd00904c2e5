// Counting words: do enough different signers say the same? One count serves every kind of word.
#![tactic(auto)]

ghost use Rattle.std.specs.Prelude.{◌≡◌, ℕ, Bool, true, ◌&&◌, ◌==◌};
ghost use Rattle.std.specs.List.{list_any};
ghost use Rattle.tally.specs.Tallies.{shared, Tallied};

// A word has a signer, and says the same as others. Sameness is an equivalence.
pub trait Word {
    ghost signer: { Self → ℕ };

    ghost same: { Self → Self → Bool };

    fn signer(&self) -> u16
        ensures { result ≡ signer self.now };

    fn same(&self, other: &Self) -> bool
        ensures { result ≡ same self.now other.now };

    ghost reflexive: { (a : Self) → same a a ≡ true };

    ghost symmetric: { (a b : Self) → same a b ≡ true → same b a ≡ true };

    ghost transitive: { (a b c : Self) → same a b ≡ true → same b c ≡ true → same a c ≡ true };
}

// Does this signer say the same as the word?
fn says<W: Word>(words: &[W], word: &W, signer: u16) -> bool
    ensures { result ≡ list_any (λ other. W.Word.same other word.now && W.Word.signer other == signer) words.now }
{
    words
        .iter()
        .any(|other| other.same(word) && other.signer() == signer)
}

// How many different signers say the same as the word: each counts where it says so last.
pub fn count<W: Word>(words: &[W], word: &W) -> usize
    ensures { result ≡ shared W.Word.signer W.Word.same words.now word.now }
{
    let mut signers: usize = 0;
    let mut rest = words;
    while let [other, later @ ..] = rest {
        if other.same(word) && !says(later, word, other.signer()) {
            signers += 1;
        }
        rest = later;
    }
    signers
}

// Do m different signers say the same? One signer of such a word, or none; none for m = 0.
pub fn tally<W: Word>(words: &[W], m: usize) -> Option<u16>
    ensures { Tallied W.Word.signer W.Word.same words.now m result }
{
    if m == 0 {
        return None;
    }
    let word = words.iter().find(|word| count(words, word) >= m)?;
    Some(word.signer())
}
