// What is told before a client starts: the ring, and the signers' keys.
use counter::state::Counter;
use keyed_box::KeyedBox;
use quorum::figures::Ring;
use quorum::refusal::Fault;
use ring_lines::RingLine;
use ring_lines::signer::SignerKey;
use std::alloc::{AllocError, Global};

#[derive(Drop)]
pub struct Setup {
    // refused until a ring is told
    ring: Result<Ring, Fault>,
    signers: Vec<SignerKey>,
}

impl Setup {
    pub fn new(heap: Global) -> Setup {
        Setup {
            ring: Ring::new(0),
            signers: Vec::new(heap),
        }
    }

    pub fn take(&mut self, told: RingLine) -> Result<(), AllocError> {
        match told {
            RingLine::Stations(stations) => self.ring = Ring::new(stations),
            RingLine::Key(signer) => self.signers.push(signer)?,
        }
        Ok(())
    }

    // A client's counter, from its first sequence number on.
    pub fn counter(&self, seals: &KeyedBox, first: u32) -> Result<Counter, Fault> {
        Counter::new(usize::from(self.ring?.stations()), seals, first)
    }

    // As the answers name it: 0 without a ring.
    pub fn quorum(&self) -> u8 {
        self.ring.map_or(0, Ring::quorum)
    }

    // The box of a number with all keys that were told, where its own is among them.
    pub fn seals(&self, own: u16) -> Option<Result<KeyedBox, Fault>> {
        let own = self.signers.iter().find(|signer| signer.number == own)?;
        Some(self.seals_of(own))
    }

    fn seals_of(&self, own: &SignerKey) -> Result<KeyedBox, Fault> {
        let mut seals = KeyedBox::new(own.number, own.key)?;
        let others = self
            .signers
            .iter()
            .filter(|signer| signer.number != own.number);
        for signer in others {
            seals.add(signer.number, signer.key)?;
        }
        Ok(seals)
    }
}
