// The keys that were given, and what they say of a seal.
use keyed_box::KeyedBox;
use outbox::statements::cover;
use quorum::limits::LONGEST_STATEMENT;
use quorum::refusal::Fault;
use records::statement::Said;
use ring_lines::signer::SignerKey;
use seal_box::SealBox;
use std::fmt;

// What is known of a seal.
#[derive(Clone, Copy)]
pub enum Verdict {
    // no key was given at all
    NotTried,
    Genuine,
    False,
}

impl fmt::Display for Verdict {
    fn fmt<W: fmt::Write>(&self, f: &mut fmt::Formatter<W>) -> fmt::Result {
        let word = match self {
            Verdict::NotTried => "",
            Verdict::Genuine => " genuine",
            Verdict::False => " not genuine",
        };
        write!(f, "{word}")
    }
}

// The keys so far; the first that is given makes the box.
#[derive(Drop)]
pub struct Keys(Option<KeyedBox>);

impl Keys {
    pub fn new() -> Keys {
        Keys(None)
    }

    pub fn add(&mut self, signer: SignerKey) -> Result<(), Fault> {
        match &mut self.0 {
            Some(keys) => keys.add(signer.number, signer.key)?,
            None => self.0 = Some(KeyedBox::new(signer.number, signer.key)?),
        }
        Ok(())
    }

    // What the keys say of a signer's seal over a statement. `seals` asks in the same way, but keeps that to itself, and
    // its callers promise that the statement fits; here one that does not fit is not genuine.
    pub fn verdict(&self, signer: u16, said: Said<'_>, tag: u64) -> Verdict {
        let Some(keys) = &self.0 else {
            return Verdict::NotTried;
        };
        let mut statement = [0; LONGEST_STATEMENT];
        match cover(said, &mut statement) {
            Ok(end) if keys.ask(signer, &statement[..end], tag) => Verdict::Genuine,
            _ => Verdict::False,
        }
    }
}
