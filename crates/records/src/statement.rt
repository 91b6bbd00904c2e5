// What a seal says. It borrows what it speaks of, so that no record is copied to be sealed or tried.
use crate::arrivals::{Failure, Inform, NewView, ViewState};
use crate::request::{Proposal, Request};

#[derive(Clone, Copy)]
pub enum Said<'a> {
    // a client asks
    Asks(&'a Request),
    // a station proposes, supports, or has executed a proposal
    Proposes(u8, &'a Proposal),
    Prepares(u8, &'a Proposal),
    Checks(u8, &'a Proposal),
    // a station tells a client the result of a proposal
    Informs(&'a Inform),
    // a station alerts that a view fails
    Alerts(&'a Failure),
    // a station leaves a view
    Leaves(&'a ViewState),
    // a primary begins a view
    Begins(&'a NewView),
}

// What the seals of a certificate support.
#[derive(Clone, Copy, PartialEq, Eq, Debug)]
pub enum Support {
    // that a proposal is prepared: they are seals of Prepares
    Prepared,
    // that it is committed: they are seals of CheckCommits
    Committed,
}

pub mod saying;
