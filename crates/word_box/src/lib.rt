// The word box: a signer's tag is the signer's word, whatever it seals. It is for trials, where seals need not be safe.
#![tactic(auto)]

ghost use Rattle.std.specs.Prelude.{◌≡◌};

use seal_box::secret::Secret;
use signers::secret_box::SecretBox;

#[derive(Clone, Copy, PartialEq, Eq, Debug)]
pub struct Word(pub [u8; 8]);

pub type WordBox = SecretBox<Word>;

impl Word {
    ghost use Rattle.word_box.specs.Worded.{number_of};

    // the number that the bytes make, highest first
    pub fn number(self) -> u64
        ensures { result ≡ number_of self }
    {
        u64::from_be_bytes(self.0)
    }
}

impl Secret for Word {
    ghost use Rattle.word_box.specs.Worded.{number_of};

    ghost tag_of = { λ word _. number_of word };

    fn tag(&self, _statement: &[u8]) -> u64 {
        self.number()
    }
}

#[cfg(test)]
mod tests {
    use super::*;
    use seal_box::SealBox;
    use std::test::Fail;

    #[test]
    fn knows_words(rt: HostRuntime) -> Result<(), Fail> {
        let mut seals = WordBox::new(3, Word([0, 0, 0, 0, 0, 0, 1, 2]))?;
        seals.add(1_000, Word([0; 8]))?;
        assert_eq!(rt; seals.seal(b"ab"), 258);
        assert!(rt; seals.ask(3, b"ac", 258));
        assert!(rt; !seals.ask(3, b"ab", 0));
        assert!(rt; seals.ask(1_000, b"ab", 0));
        assert!(rt; !seals.ask(0, b"ab", 0));
        Ok(())
    }
}
