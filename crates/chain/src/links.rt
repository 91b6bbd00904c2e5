// The fields are tried from left to right; the first that breaks the chain is the place of the refusal.
ghost use Rattle.std.specs.Prelude.{◌≡◌, ◌+◌, ◌≤◌, Ok};
ghost use Rattle.quorum.specs.Rings.{stations_of};
ghost use Rattle.records.specs.Lists.{listed};
ghost use Rattle.records.specs.Places.{prepared_place};
ghost use Rattle.records.specs.Reading.{◌then◌};
ghost use Rattle.records.specs.Chain.{rounds_link, commit_link, next_round, state_link, member_link, states_link, chain_of};

use quorum::figures::Ring;
use quorum::refusal::Fault;
use records::arrivals::{Arrival, NewView};
use records::certificate::Certificate;
use records::certificate::sizes::certificate_size;
use records::places::{FIRST_STATE, PlacedState};

// The commit certificate: no view above the view state's.
fn commit_link(placed: PlacedState<'_>) -> Result<(), Fault>
    ensures { result ≡ (commit_link (stations_of placed.entry.ring) placed.entry.state.now.view (placed.entry.at + 7) placed.entry.state.now.commit then (λ _. Ok tt)) }
{
    match &placed.state.commit {
        Some(certificate) if certificate.proposal.view > placed.state.view => {
            Err(Fault::BrokenChain(placed.places().commit))
        }
        _ => Ok(()),
    }
}

// The round that the first prepared certificate has to have; one above the last round of all is no round.
fn next_round(commit: &Option<Certificate>) -> u64
    ensures value { result ≡ next_round commit.now }
    ensures bound { result ≤ 4294967296 }
{
    match commit {
        None => 1,
        Some(certificate) => u64::from(certificate.proposal.round) + 1,
    }
}

// Prepared certificates: no view above the view state's, and rounds that follow one another.
fn rounds_link(placed: PlacedState<'_>) -> Result<(), Fault>
    ensures { result ≡ (rounds_link (stations_of placed.entry.ring) placed.entry.state.now.view (prepared_place (stations_of placed.entry.ring) placed.entry.at placed.entry.state.now) (next_round placed.entry.state.now.commit) (listed placed.entry.state.now.prepared) then (λ _. Ok tt)) }
{
    let size = certificate_size(placed.ring);
    let first = placed.places().prepared;
    let round = next_round(&placed.state.commit);
    let certificates = placed.state.prepared.as_slice();
    for (i, certificate) in certificates.iter().enumerate() {
        let place = first + i * size;
        if certificate.proposal.view > placed.state.view {
            return Err(Fault::BrokenChain(place));
        }
        if u64::from(certificate.proposal.round) != round + i as u64 {
            return Err(Fault::BrokenChain(place + 4));
        }
    }
    Ok(())
}

// A view state.
fn state_link(placed: PlacedState<'_>) -> Result<(), Fault>
    ensures { result ≡ (state_link (stations_of placed.entry.ring) placed.entry.at placed.entry.state.now then (λ _. Ok tt)) }
{
    commit_link(placed)?;
    rounds_link(placed)
}

// One view state of a new view: a sender of the ring from `low` on, and the view before.
fn member_link(view: u32, low: u16, placed: PlacedState<'_>) -> Result<(), Fault>
    ensures { result ≡ (member_link (stations_of placed.entry.ring) view placed.entry.at low placed.entry.state.now then (λ _. Ok tt)) }
{
    if u16::from(placed.state.sender) < low || placed.state.sender >= placed.ring.stations() {
        return Err(Fault::BrokenChain(placed.at + 2));
    }
    if Some(placed.state.view) != view.checked_sub(1) {
        return Err(Fault::BrokenChain(placed.at + 3));
    }
    state_link(placed)
}

// The view states of a new view, with rising senders.
fn states_link(ring: Ring, view: &NewView) -> Result<(), Fault>
    ensures { result ≡ (states_link (stations_of ring) view.now.view 8 0 (listed view.now.states) then (λ _. Ok tt)) }
{
    let mut at = FIRST_STATE;
    let mut low = 0;
    for state in view.states.as_slice() {
        let placed = PlacedState { ring, at, state };
        member_link(view.view, low, placed)?;
        at = placed.places().end;
        low = u16::from(state.sender) + 1;
    }
    Ok(())
}

// Whether a record that arrives keeps the chain rule, and if not, where it breaks it.
pub fn check_chain(ring: Ring, arrival: &Arrival) -> Result<(), Fault>
    ensures { result ≡ chain_of (stations_of ring) arrival.now }
{
    match arrival {
        Arrival::ViewState(state) => state_link(PlacedState { ring, at: 0, state }),
        Arrival::NewView(view) => states_link(ring, view),
        _ => Ok(()),
    }
}
