// Seals and certificates.
#![tactic(auto, using(crate::proofs::Pens::wrote_none, crate::proofs::Pens::wrote_fault), unfolding(records::specs::Writing::seal_bytes, records::specs::Writing::seals_bytes, records::specs::Writing::certificate_bytes, records::specs::Writing::commit_bytes))]

ghost use Rattle.std.specs.Prelude.{◌≡◌};
ghost use Rattle.records.specs.Numbers.{mask_of};
ghost use Rattle.records.specs.Writing.{seal_bytes, seals_bytes, certificate_bytes, commit_bytes};

use crate::pen::{Pen, Put};
use quorum::refusal::Fault;
use records::certificate::Certificate;

// The mask that shows which stations' seals are there: bit i for station i.
fn mask_of(seals: &[Option<u64>; 10]) -> u16
    ensures { result ≡ mask_of seals.now }
{
    seals
        .iter()
        .rev()
        .fold(0, |mask: u16, seal| mask << 1 | u16::from(seal.is_some()))
}

// One station's seal: nothing where there is none.
impl Put for Option<u64> {
    ghost bytes = { seal_bytes };

    fn put(&self, pen: &mut Pen<'_>) -> Result<(), Fault> {
        match self {
            Some(tag) => tag.put(pen),
            None => Ok(()),
        }
    }
}

// The mask, and the seals that are there, by rising station.
impl Put for [Option<u64>; 10] {
    ghost bytes = { seals_bytes };

    fn put(&self, pen: &mut Pen<'_>) -> Result<(), Fault> {
        mask_of(self).put(pen)?;
        pen.each(self)
    }
}

impl Put for Certificate {
    ghost bytes = { certificate_bytes };

    fn put(&self, pen: &mut Pen<'_>) -> Result<(), Fault> {
        self.proposal.put(pen)?;
        self.seals.put(pen)
    }
}

// None or one certificate, behind its count.
impl Put for Option<Certificate> {
    ghost bytes = { commit_bytes };

    fn put(&self, pen: &mut Pen<'_>) -> Result<(), Fault> {
        pen.counted(self.as_slice())
    }
}
