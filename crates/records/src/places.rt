// Where the parts of certificates and view states stand. Whoever reads, tries or shows them takes the places from here.
ghost use Rattle.std.specs.Prelude.{◌≡◌, ◌+◌, ◌*◌, ◌≤◌, length};
ghost use Rattle.quorum.specs.Limits.{longest_certificate, longest_state, longest_record};
ghost use Rattle.quorum.specs.Rings.{stations_of};
ghost use Rattle.records.specs.Places.{after_certificate, after_commit, places_of};

use crate::arrivals::ViewState;
use crate::certificate::Certificate;
use crate::certificate::sizes::certificate_size;
use quorum::figures::Ring;

// The bytes of a proposal.
pub const PROPOSAL_SIZE: usize = 38;

// The bytes of a certificate before its seals: a proposal and a mask.
pub const SEALS_OFFSET: usize = 40;

// The bytes of a seal.
pub const SEAL_SIZE: usize = 8;

// In a request: its seal, behind all that it covers.
pub const REQUEST_SEAL: usize = 24;

// In a new view: its first view state, behind the count of them.
pub const FIRST_STATE: usize = 8;

// The place after a certificate.
pub fn after_certificate(ring: Ring, at: usize) -> usize
    requires { at ≤ longest_record }
    ensures value { result ≡ after_certificate (stations_of ring) at }
    ensures bound { result ≤ at + longest_certificate }
{
    at + certificate_size(ring)
}

// The place after none or one commit certificate whose count stands at a place.
pub fn after_commit(ring: Ring, at: usize, commit: &Option<Certificate>) -> usize
    requires { at + longest_certificate ≤ longest_record }
    ensures value { result ≡ after_commit (stations_of ring) at commit.now }
    ensures bound { result ≤ at + longest_certificate + 1 }
{
    match commit {
        None => at + 1,
        Some(_) => after_certificate(ring, at + 1),
    }
}

// Where the parts of a view state stand.
#[derive(Clone, Copy)]
pub struct StatePlaces {
    // the commit certificate, behind the count of it
    pub commit: usize,
    // the first prepared certificate, behind the count of them
    pub prepared: usize,
    // its own seal
    pub seal: usize,
    // the place after it
    pub end: usize,
}

impl ViewState {
    // The places of a view state that begins at a place.
    pub fn places(&self, ring: Ring, at: usize) -> StatePlaces
        requires { at + longest_state ≤ longest_record }
        ensures value { result ≡ places_of (stations_of ring) at self.now }
        ensures bound { result.end ≤ at + longest_state }
    {
        let prepared = after_commit(ring, at + 7, &self.commit) + 1;
        let count = self.prepared.as_slice().len();
        let seal = prepared + count * certificate_size(ring);
        StatePlaces {
            commit: at + 8,
            prepared,
            seal,
            end: seal + SEAL_SIZE,
        }
    }
}

// A view state where it stands in a record of a ring.
#[derive(Clone, Copy)]
pub struct PlacedState<'a> {
    pub ring: Ring,
    pub at: usize,
    pub state: &'a ViewState,
    ghost room: { at + longest_state ≤ longest_record },
}

impl PlacedState<'_> {
    // The places of its parts.
    pub fn places(self) -> StatePlaces
        ensures value { result ≡ places_of (stations_of self.entry.ring) self.entry.at self.entry.state.now }
        ensures bound { result.end ≤ self.entry.at + longest_state }
    {
        self.state.places(self.ring, self.at)
    }
}
