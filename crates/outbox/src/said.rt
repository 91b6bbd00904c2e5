// View states, and what a seal covers.
#![tactic(auto, using(crate::proofs::Pens::wrote_fault), unfolding(records::specs::Writing::asked_bytes, records::specs::Writing::head_bytes, records::specs::Writing::claim_bytes, records::specs::Writing::inform_body, records::specs::Writing::failure_body, records::specs::Writing::state_body, records::specs::Writing::state_bytes, records::specs::Writing::prepared_bytes, records::specs::Writing::new_view_body, records::specs::Writing::states_bytes, records::specs::Statements::said_bytes))]

ghost use Rattle.std.specs.Prelude.{◌++◌};
ghost use Rattle.outbox.specs.Pens.{Wrote};
ghost use Rattle.records.specs.Said.{meaning_of};
ghost use Rattle.records.specs.Statements.{said_bytes};
ghost use Rattle.records.specs.Writing.{mark_bytes, head_bytes, asked_bytes, claim_bytes, state_body, state_bytes, new_view_body, failure_body, inform_body};

use crate::pen::{Pen, Put};
use crate::requests::put_asked;
use quorum::refusal::Fault;
use records::arrivals::{Failure, Inform, NewView, ViewState};
use records::marks::Mark;
use records::request::{Proposal, Request};
use records::statement::Said;

// A mark and the sender after it.
fn put_head(mark: Mark, sender: u8, pen: &mut Pen<'_>) -> Result<(), Fault>
    ensures { Wrote pen.old pen.new (head_bytes mark sender) result }
{
    mark.put(pen)?;
    sender.put(pen)
}

// A statement about a proposal.
fn put_claim(mark: Mark, sender: u8, proposal: &Proposal, pen: &mut Pen<'_>) -> Result<(), Fault>
    ensures { Wrote pen.old pen.new (claim_bytes mark sender proposal.now) result }
{
    put_head(mark, sender, pen)?;
    proposal.put(pen)
}

fn put_asking(request: &Request, pen: &mut Pen<'_>) -> Result<(), Fault>
    ensures { Wrote pen.old pen.new (mark_bytes Mark.Request ++ asked_bytes request.now) result }
{
    Mark::Request.put(pen)?;
    put_asked(request, pen)
}

fn put_inform(inform: &Inform, pen: &mut Pen<'_>) -> Result<(), Fault>
    ensures { Wrote pen.old pen.new (inform_body inform.now) result }
{
    put_claim(Mark::Inform, inform.sender, &inform.proposal, pen)?;
    inform.result.put(pen)
}

fn put_failure(failure: &Failure, pen: &mut Pen<'_>) -> Result<(), Fault>
    ensures { Wrote pen.old pen.new (failure_body failure.now) result }
{
    put_head(Mark::Failure, failure.sender, pen)?;
    failure.view.put(pen)
}

// A view state without its seal.
fn put_state(state: &ViewState, pen: &mut Pen<'_>) -> Result<(), Fault>
    ensures { Wrote pen.old pen.new (state_body state.now) result }
{
    put_head(Mark::ViewState, state.sender, pen)?;
    state.view.put(pen)?;
    state.commit.put(pen)?;
    pen.counted(state.prepared.as_slice())
}

// A view state with its seal, as it stands in a new view.
impl Put for ViewState {
    ghost bytes = { state_bytes };

    fn put(&self, pen: &mut Pen<'_>) -> Result<(), Fault> {
        put_state(self, pen)?;
        self.seal.put(pen)
    }
}

fn put_new_view(view: &NewView, pen: &mut Pen<'_>) -> Result<(), Fault>
    ensures { Wrote pen.old pen.new (new_view_body view.now) result }
{
    put_head(Mark::NewView, view.sender, pen)?;
    view.view.put(pen)?;
    pen.counted(view.states.as_slice())
}

// What a seal covers.
impl Put for Said<'_> {
    ghost bytes = { λ said. said_bytes (meaning_of said) };

    fn put(&self, pen: &mut Pen<'_>) -> Result<(), Fault> {
        match *self {
            Said::Asks(request) => put_asking(request, pen),
            Said::Proposes(sender, proposal) => put_claim(Mark::Propose, sender, proposal, pen),
            Said::Prepares(sender, proposal) => put_claim(Mark::Prepare, sender, proposal, pen),
            Said::Checks(sender, proposal) => put_claim(Mark::CheckCommit, sender, proposal, pen),
            Said::Informs(inform) => put_inform(inform, pen),
            Said::Alerts(failure) => put_failure(failure, pen),
            Said::Leaves(state) => put_state(state, pen),
            Said::Begins(view) => put_new_view(view, pen),
        }
    }
}
