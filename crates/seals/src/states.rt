// The seals of view states and new views.
ghost use Rattle.std.specs.Prelude.{◌≡◌, ◌+◌, [], ◌∷◌};
ghost use Rattle.std.specs.List.{AllByRecursion};
ghost use Rattle.quorum.specs.Rings.{stations_of};
ghost use Rattle.records.specs.Lists.{listed};
ghost use Rattle.records.specs.Places.{prepared_place, state_seal_place};
ghost use Rattle.records.specs.Range.{RightCertificate, RightCommit, RightState};
ghost use Rattle.records.specs.Reading.{◌then◌};
ghost use Rattle.seals.specs.Tried.{tried, prepared_seals, commit_seals, state_seals, state_says, states_seals, first_false};

use crate::asking::try_seal;
use crate::certificates::try_certificate;
use quorum::figures::Ring;
use quorum::refusal::Fault;
use records::arrivals::NewView;
use records::certificate::sizes::certificate_size;
use records::places::{FIRST_STATE, PlacedState};
use records::statement::{Said, Support};
use seal_box::SealBox;

// The seals of the commit certificate.
fn try_commit<B: SealBox>(seals: &B, placed: PlacedState<'_>) -> Result<(), Fault>
    requires { RightCommit (stations_of placed.ring) placed.state.now.commit }
    ensures { result ≡ first_false (B.genuine seals.now) (commit_seals (placed.entry.at + 7) placed.entry.state.now.commit) }
{
    match &placed.state.commit {
        None => Ok(()),
        Some(certificate) => {
            let place = placed.places().commit;
            try_certificate(seals, Support::Committed, place, certificate)
        }
    }
}

// The seals of the prepared certificates.
fn try_prepared<B: SealBox>(seals: &B, placed: PlacedState<'_>) -> Result<(), Fault>
    requires { AllByRecursion (RightCertificate (stations_of placed.ring)) (listed placed.state.now.prepared) }
    ensures { result ≡ first_false (B.genuine seals.now) (prepared_seals (stations_of placed.entry.ring) (prepared_place (stations_of placed.entry.ring) placed.entry.at placed.entry.state.now) (listed placed.entry.state.now.prepared)) }
{
    let size = certificate_size(placed.ring);
    let first = placed.places().prepared;
    let certificates = placed.state.prepared.as_slice();
    for (i, certificate) in certificates.iter().enumerate() {
        try_certificate(seals, Support::Prepared, first + i * size, certificate)?;
    }
    Ok(())
}

// The certificates' seals of a view state; its own is not tried here.
#[tactic(auto, using(crate::proofs::Turns::false_append))]
pub(crate) fn try_state<B: SealBox>(seals: &B, placed: PlacedState<'_>) -> Result<(), Fault>
    requires { RightState (stations_of placed.ring) placed.state.now }
    ensures { result ≡ first_false (B.genuine seals.now) (state_seals (stations_of placed.entry.ring) placed.entry.at placed.entry.state.now) }
{
    try_commit(seals, placed)?;
    try_prepared(seals, placed)
}

// A view state inside a new view: its certificates' seals, then its own.
fn try_member<B: SealBox>(seals: &B, placed: PlacedState<'_>) -> Result<(), Fault>
    requires { RightState (stations_of placed.ring) placed.state.now }
    ensures { result ≡ (first_false (B.genuine seals.now) (state_seals (stations_of placed.entry.ring) placed.entry.at placed.entry.state.now) then (λ _. first_false (B.genuine seals.now) (tried placed.entry.state.now.sender (state_says placed.entry.state.now) placed.entry.state.now.seal (state_seal_place (stations_of placed.entry.ring) placed.entry.at placed.entry.state.now) ∷ []))) }
{
    try_state(seals, placed)?;
    let state = placed.state;
    let signer = u16::from(state.sender);
    let place = placed.places().seal;
    try_seal(seals, signer, Said::Leaves(state), state.seal, place)
}

// The seals of the view states of a new view.
pub(crate) fn try_states<B: SealBox>(seals: &B, ring: Ring, view: &NewView) -> Result<(), Fault>
    requires { AllByRecursion (RightState (stations_of ring)) (listed view.now.states) }
    ensures { result ≡ first_false (B.genuine seals.now) (states_seals (stations_of ring) 8 (listed view.now.states)) }
{
    let mut at = FIRST_STATE;
    for state in view.states.as_slice() {
        let placed = PlacedState { ring, at, state };
        try_member(seals, placed)?;
        at = placed.places().end;
    }
    Ok(())
}
