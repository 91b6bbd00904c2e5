// Requests and proposals.
#![tactic(auto, using(crate::proofs::Pens::wrote_fault), unfolding(records::specs::Writing::asked_bytes, records::specs::Writing::request_bytes, records::specs::Writing::proposal_bytes))]

ghost use Rattle.outbox.specs.Pens.{Wrote};
ghost use Rattle.records.specs.Writing.{asked_bytes, request_bytes, proposal_bytes};

use crate::pen::{Pen, Put};
use quorum::refusal::Fault;
use records::request::{Proposal, Request};

// What a client's seal covers, behind the mark.
pub(crate) fn put_asked(request: &Request, pen: &mut Pen<'_>) -> Result<(), Fault>
    ensures { Wrote pen.old pen.new (asked_bytes request.now) result }
{
    request.client.put(pen)?;
    request.sequence.put(pen)?;
    pen.write(&request.payload.bytes)
}

impl Put for Request {
    ghost bytes = { request_bytes };

    fn put(&self, pen: &mut Pen<'_>) -> Result<(), Fault> {
        put_asked(self, pen)?;
        self.seal.put(pen)
    }
}

impl Put for Proposal {
    ghost bytes = { proposal_bytes };

    fn put(&self, pen: &mut Pen<'_>) -> Result<(), Fault> {
        self.view.put(pen)?;
        self.round.put(pen)?;
        self.request.put(pen)
    }
}
