// The seals of certificates, by rising station.
ghost use Rattle.std.specs.Prelude.{◌≡◌, ◌≤◌};
ghost use Rattle.quorum.specs.Limits.{longest_record};
ghost use Rattle.records.specs.Range.{RightProposal};
ghost use Rattle.records.specs.Said.{says};
ghost use Rattle.seals.specs.Tried.{certificate_seals, first_false};

use crate::asking::try_seal;
use quorum::refusal::Fault;
use records::certificate::Certificate;
use records::places::{SEAL_SIZE, SEALS_OFFSET};
use records::statement::Support;
use seal_box::SealBox;

// The seals of a certificate that stands at a place.
pub(crate) fn try_certificate<B: SealBox>(
    seals: &B,
    support: Support,
    at: usize,
    certificate: &Certificate,
) -> Result<(), Fault>
    requires near { at ≤ longest_record }
    requires right { RightProposal certificate.now.proposal }
    ensures { result ≡ first_false (B.genuine seals.now) (certificate_seals (says support) at certificate.now) }
{
    let tags: &[Option<u64>] = &certificate.seals;
    let mut place = at + SEALS_OFFSET;
    for (station, seal) in tags.iter().enumerate() {
        if let Some(tag) = seal {
            let said = support.said(station as u8, &certificate.proposal);
            try_seal(seals, station as u16, said, *tag, place)?;
            place += SEAL_SIZE;
        }
    }
    Ok(())
}
