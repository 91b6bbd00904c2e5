// The first whole record of a stream of bytes.
ghost use Rattle.std.specs.Prelude.{◌≡◌};
ghost use Rattle.records.specs.Reading.{frame_of};
ghost use Rattle.reader.specs.Parts.{shown};

use crate::reading::first_record;
use quorum::figures::Ring;
use quorum::refusal::Fault;

// The part of the bytes that holds their first whole record, for a ring of so many stations.
pub fn frame(stations: usize, bytes: &[u8]) -> Result<&[u8], Fault>
    ensures { shown result ≡ frame_of stations bytes.now }
{
    let ring = Ring::new(stations)?;
    let (_, end) = first_record(ring, bytes)?;
    Ok(&bytes[0..end])
}
