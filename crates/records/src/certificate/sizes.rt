// How long a certificate is: a proposal, a mask and the seals of a quorum.
ghost use Rattle.std.specs.Prelude.{◌≡◌, ◌≤◌};
ghost use Rattle.quorum.specs.Rings.{stations_of};
ghost use Rattle.records.specs.Reading.{certificate_size};

use crate::places::{SEAL_SIZE, SEALS_OFFSET};
use quorum::figures::Ring;

pub fn certificate_size(ring: Ring) -> usize
    ensures value { result ≡ certificate_size (stations_of ring) }
    ensures bound { result ≤ 96 }
{
    SEALS_OFFSET + SEAL_SIZE * ring.quorum() as usize
}
