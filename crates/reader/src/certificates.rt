// Certificates: a proposal, the mask of a quorum, and its seals by rising station.
ghost use Rattle.std.specs.Prelude.{◌≡◌, ◌*◌, ◌/◌, ◌^◌, ◌<◌, count_ones};
ghost use Rattle.quorum.specs.Rings.{stations_of};
ghost use Rattle.records.specs.Reading.{slot_at, seals_at, certificate_size, certificate_at, commit_at, prepared_at};
ghost use Rattle.reader.specs.Cursor.{Reads, ReadsOn};

use crate::cursor::Cursor;
use quorum::figures::Ring;
use quorum::limits::MOST_PREPARED;
use quorum::refusal::Fault;
use records::certificate::Certificate;
use records::few::Few;

impl<'a> Cursor<'a> {
    // The seal of station i, where the mask shows it.
    fn slot(&mut self, mask: u16, i: usize) -> Result<Option<u64>, Fault>
        requires { i < 10 }
        ensures { ReadsOn (λ bs at. slot_at bs mask i at) self.old self.new result }
    {
        if (mask >> i) % 2 == 0 {
            return Ok(None);
        }
        Ok(Some(self.u64()?))
    }

    // The seals of the stations that a mask shows, none of which is past the tenth.
    fn seals(&mut self, mask: u16) -> Result<[Option<u64>; 10], Fault>
        requires { mask / 2 ^ 10 ≡ 0 }
        ensures { Reads (8 * count_ones mask) (λ bs at. seals_at bs mask at) self.old self.new result }
    {
        let mut seals = [None; 10];
        for (i, seal) in seals.iter_mut().enumerate() {
            *seal = self.slot(mask, i)?;
        }
        Ok(seals)
    }

    // A mask has exactly the bits of a quorum, and none past the ring.
    pub(crate) fn certificate(&mut self, ring: Ring) -> Result<Certificate, Fault>
        ensures { Reads (certificate_size (stations_of ring)) (certificate_at (stations_of ring)) self.old self.new result }
    {
        let proposal = self.proposal()?;
        let at = self.place();
        let mask = self.u16()?;
        if mask >> ring.stations() != 0 || mask.count_ones() != u32::from(ring.quorum()) {
            return Err(Fault::Unreadable(at));
        }
        let seals = self.seals(mask)?;
        Ok(Certificate { proposal, seals })
    }

    // None or one certificate after its count.
    pub(crate) fn commit(&mut self, ring: Ring) -> Result<Option<Certificate>, Fault>
        ensures { ReadsOn (commit_at (stations_of ring)) self.old self.new result }
    {
        let at = self.place();
        match self.u8()? {
            0 => Ok(None),
            1 => Ok(Some(self.certificate(ring)?)),
            _ => Err(Fault::Unreadable(at)),
        }
    }

    // None to eight certificates after their count.
    pub(crate) fn prepared(&mut self, ring: Ring) -> Result<Few<Certificate, 8>, Fault>
        ensures { ReadsOn (prepared_at (stations_of ring)) self.old self.new result }
    {
        let at = self.place();
        let count = usize::from(self.u8()?);
        if count > MOST_PREPARED {
            return Err(Fault::Unreadable(at));
        }
        self.several(Certificate::BLANK, count, |cursor| {
            cursor.certificate(ring)
        })
    }
}
