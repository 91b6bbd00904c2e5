// The records that stations send, and all records together.
use crate::certificate::Certificate;
use crate::few::Few;
use crate::request::{Proposal, Request};

// A station's word on a proposal. The kind of its record says which.
#[derive(Clone, Copy, PartialEq, Eq, Debug, Default)]
pub struct Claim {
    pub sender: u8,
    pub proposal: Proposal,
    pub seal: u64,
}

// The primary's proposal.
pub type Propose = Claim;

// A station's support of a proposal.
pub type Prepare = Claim;

// A station's word that it executed a prepared proposal; the seal covers the proposal, not the certificate's seals.
#[derive(Clone, Copy, PartialEq, Eq, Debug, Default)]
pub struct CheckCommit {
    pub sender: u8,
    pub prepared: Certificate,
    pub seal: u64,
}

// A station's word to the client: the request stands at this view and round and has this result.
#[derive(Clone, Copy, PartialEq, Eq, Debug, Default)]
pub struct Inform {
    pub sender: u8,
    pub proposal: Proposal,
    pub result: u64,
    pub seal: u64,
}

// A station's alert that a view fails.
#[derive(Clone, Copy, PartialEq, Eq, Debug, Default)]
pub struct Failure {
    pub sender: u8,
    pub view: u32,
    pub seal: u64,
}

// What a station holds as it leaves a view: its last commit and the prepared lines above it.
#[derive(Clone, Copy, Default)]
pub struct ViewState {
    pub sender: u8,
    pub view: u32,
    pub commit: Option<Certificate>,
    pub prepared: Few<Certificate, 8>,
    pub seal: u64,
}

impl ViewState {
    // what fills a place that holds no view state
    pub const BLANK: ViewState = ViewState {
        sender: 0,
        view: 0,
        commit: None,
        prepared: Few {
            items: [Certificate::BLANK; 8],
            len: 0,
        },
        seal: 0,
    };
}

// The next primary's start of a view, from a quorum of view states.
#[derive(Clone, Copy, Default)]
pub struct NewView {
    pub sender: u8,
    pub view: u32,
    pub states: Few<ViewState, 7>,
    pub seal: u64,
}

// What may arrive at a station from another.
#[derive(Clone, Copy)]
pub enum Arrival {
    Propose(Propose),
    Prepare(Prepare),
    CheckCommit(CheckCommit),
    Failure(Failure),
    ViewState(ViewState),
    NewView(NewView),
}

// Any record: a client's request, an answer to a client, or what stations send each other.
#[derive(Clone, Copy)]
pub enum Record {
    Request(Request),
    Inform(Inform),
    Arrival(Arrival),
}

pub mod seals;
pub mod senders;
