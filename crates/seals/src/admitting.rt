// What is admitted of what arrives: it is readable, from a right sender, within the chain rule, and its seals are genuine.
ghost use Rattle.std.specs.Prelude.{◌≡◌, [], ◌∷◌, length};
ghost use Rattle.quorum.specs.Rings.{stations_of};
ghost use Rattle.records.specs.Range.{RightRequest, RightArrival};
ghost use Rattle.records.specs.Writing.{arrival_bytes, record_bytes};
ghost use Rattle.seals.specs.Tried.{request_seal, inner_of, seals_of, seals_of_inform, first_false};
ghost use Rattle.seals.specs.Admitted.{primary_for, sender_of, admitted, submitted, heard};

use crate::asking::try_seal;
use crate::certificates::try_certificate;
use crate::states::{try_state, try_states};
use chain::links::check_chain;
use quorum::figures::Ring;
use quorum::refusal::Fault;
use reader::reading::{read_arrival, read_inform, read_request};
use records::arrivals::{Arrival, Inform, Record};
use records::places::{PlacedState, REQUEST_SEAL, SEAL_SIZE};
use records::request::Request;
use records::statement::{Said, Support};
use seal_box::SealBox;

// where the sender stands in a record, the seals of a proposal's request and of an inform, and the certificate of a check
// commit
const SENDER_AT: usize = 2;

const PROPOSED_SEAL_AT: usize = 33;

const INFORM_SEAL_AT: usize = 49;

const PREPARED_AT: usize = 3;

// The primary that a record has to come from, if it has to come from one.
fn from_primary(ring: Ring, arrival: &Arrival) -> Option<u8>
    ensures { result ≡ primary_for (stations_of ring) arrival.now }
{
    match arrival {
        Arrival::Propose(propose) => Some(ring.primary(propose.proposal.view)),
        Arrival::NewView(view) => Some(ring.primary(view.view)),
        _ => None,
    }
}

// A sender is another station of the ring, and of a Propose and a NewView their view's primary.
pub fn check_sender(ring: Ring, own: u16, arrival: &Arrival) -> Result<(), Fault>
    ensures { result ≡ sender_of (stations_of ring) own arrival.now }
{
    let from = arrival.sender();
    if from >= ring.stations() || u16::from(from) == own {
        return Err(Fault::WrongSender(SENDER_AT));
    }
    match from_primary(ring, arrival) {
        Some(primary) if primary != from => Err(Fault::WrongSender(SENDER_AT)),
        _ => Ok(()),
    }
}

// The seal of a request that stands at a place.
fn try_request<B: SealBox>(seals: &B, request: &Request, place: usize) -> Result<(), Fault>
    requires { RightRequest request.now }
    ensures { result ≡ first_false (B.genuine seals.now) (request_seal place request.now ∷ []) }
{
    try_seal(
        seals,
        request.client,
        Said::Asks(request),
        request.seal,
        place,
    )
}

// The seal of an inform, over the part of its bytes that stands before it.
fn try_inform<B: SealBox>(seals: &B, inform: &Inform, bytes: &[u8]) -> Result<(), Fault>
    requires { record_bytes (Record.Inform inform.now) ≡ bytes.now }
    ensures { result ≡ first_false (B.genuine seals.now) (seals_of_inform inform.now) }
{
    let statement = &bytes[..bytes.len() - SEAL_SIZE];
    if !seals.ask(u16::from(inform.sender), statement, inform.seal) {
        return Err(Fault::NotGenuine(INFORM_SEAL_AT));
    }
    Ok(())
}

// The seals inside a record.
fn try_inner<B: SealBox>(seals: &B, ring: Ring, arrival: &Arrival) -> Result<(), Fault>
    requires { RightArrival (stations_of ring) arrival.now }
    ensures { result ≡ first_false (B.genuine seals.now) (inner_of (stations_of ring) arrival.now) }
{
    match arrival {
        Arrival::Propose(propose) => {
            try_request(seals, &propose.proposal.request, PROPOSED_SEAL_AT)
        }
        Arrival::CheckCommit(check) => {
            try_certificate(seals, Support::Prepared, PREPARED_AT, &check.prepared)
        }
        Arrival::ViewState(state) => try_state(seals, PlacedState { ring, at: 0, state }),
        Arrival::NewView(view) => try_states(seals, ring, view),
        Arrival::Prepare(_) | Arrival::Failure(_) => Ok(()),
    }
}

// All seals of a record of so many bytes: its own first, which stands last in it.
fn try_all<B: SealBox>(seals: &B, ring: Ring, arrival: &Arrival, size: usize) -> Result<(), Fault>
    requires right { RightArrival (stations_of ring) arrival.now }
    requires whole { length (arrival_bytes arrival.now) ≡ size }
    ensures { result ≡ first_false (B.genuine seals.now) (seals_of (stations_of ring) arrival.now) }
{
    let signer = u16::from(arrival.sender());
    let place = size.saturating_sub(SEAL_SIZE);
    try_seal(seals, signer, arrival.said(), arrival.seal(), place)?;
    try_inner(seals, ring, arrival)
}

// A record that arrives at a station: the refusals 2 to 5, in their order.
pub fn admit<B: SealBox>(seals: &B, ring: Ring, own: u16, bytes: &[u8]) -> Result<Arrival, Fault>
    ensures { result ≡ admitted (B.genuine seals.now) (stations_of ring) own bytes.now }
{
    let arrival = read_arrival(ring, bytes)?;
    check_sender(ring, own, &arrival)?;
    check_chain(ring, &arrival)?;
    try_all(seals, ring, &arrival, bytes.len())?;
    Ok(arrival)
}

// A request that is submitted: it is readable, and its seal is genuine.
pub fn admit_request<B: SealBox>(seals: &B, bytes: &[u8]) -> Result<Request, Fault>
    ensures { result ≡ submitted (B.genuine seals.now) bytes.now }
{
    let request = read_request(bytes)?;
    try_request(seals, &request, REQUEST_SEAL)?;
    Ok(request)
}

// An inform that is heard: it is readable, from a station of the ring, and its seal is genuine.
pub fn admit_inform<B: SealBox>(seals: &B, ring: Ring, bytes: &[u8]) -> Result<Inform, Fault>
    ensures { result ≡ heard (B.genuine seals.now) (stations_of ring) bytes.now }
{
    let inform = read_inform(bytes)?;
    if inform.sender >= ring.stations() {
        return Err(Fault::WrongSender(SENDER_AT));
    }
    try_inform(seals, &inform, bytes)?;
    Ok(inform)
}
