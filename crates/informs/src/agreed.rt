// What a quorum of stations tells a client alike. The client keeps one place for each station's latest inform.
ghost use Rattle.std.specs.Prelude.{◌≡◌, ◌≤◌, true, length};
ghost use Rattle.quorum.specs.Rings.{stations_of};
ghost use Rattle.records.specs.Lists.{listed};
ghost use Rattle.informs.specs.Agreed.{told, placed, said_by, agreed_by, most_alike};

use crate::alike::Told;
use quorum::figures::Ring;
use records::arrivals::Inform;
use records::few::Few;
use tally::{count, tally};

// What a client may rely on: where its request stands, and its result.
#[derive(Clone, Copy, PartialEq, Eq, Debug)]
pub struct Release {
    pub view: u32,
    pub round: u32,
    pub result: u64,
}

impl From<&Inform> for Release {
    ghost from_gives = { λ inform release. release ≡ said_by inform.now };

    fn from(inform: &Inform) -> Release {
        Release {
            view: inform.proposal.view,
            round: inform.proposal.round,
            result: inform.result,
        }
    }
}

// The informs that are there, by rising station.
fn gathered(heard: &[Option<Inform>; 10]) -> Few<Told, 10>
    ensures { listed result ≡ told heard.now }
{
    let mut words = Few::new(Told::default());
    for inform in heard.iter().flatten() {
        words.push(Told { inform: *inform });
    }
    words
}

// What the informs of a quorum say alike.
pub fn agreed(ring: Ring, heard: &[Option<Inform>; 10]) -> Option<Release>
    requires { placed (stations_of ring) heard.now ≡ true }
    ensures { result ≡ agreed_by (stations_of ring) heard.now }
{
    let informs = gathered(heard);
    let station = tally(informs.as_slice(), usize::from(ring.quorum()))?;
    heard[usize::from(station)].as_ref().map(Release::from)
}

// How many stations' informs are alike, at the most.
pub fn most(heard: &[Option<Inform>; 10]) -> u8
    requires { placed 10 heard.now ≡ true }
    ensures { result ≡ most_alike heard.now }
{
    let informs = gathered(heard);
    let words = informs.as_slice();
    let mut most = 0;
    for word in words {
        // no more can be alike than there are
        if most < words.len() {
            most = most.max(count(words, word));
        }
    }
    most as u8
}
