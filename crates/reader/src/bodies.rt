// What stands behind the mark of each record.
ghost use Rattle.std.specs.Prelude.{◌+◌};
ghost use Rattle.quorum.specs.Rings.{stations_of};
ghost use Rattle.records.specs.Reading.{claim_in, check_commit_in, inform_in, failure_in, state_at, new_view_in, certificate_size};
ghost use Rattle.reader.specs.Cursor.{ReadsOn, ReadsFrom, ReadsOnFrom};

use crate::cursor::Cursor;
use quorum::figures::Ring;
use quorum::limits::{LAST_FAILED_VIEW, LAST_VIEW};
use quorum::refusal::Fault;
use records::arrivals::{CheckCommit, Claim, Failure, Inform, NewView, ViewState};
use records::marks;

impl<'a> Cursor<'a> {
    // What a Propose and a Prepare hold.
    pub(crate) fn claim(&mut self) -> Result<Claim, Fault>
        ensures { ReadsFrom 2 47 claim_in self.old self.new result }
    {
        let sender = self.u8()?;
        let proposal = self.proposal()?;
        let seal = self.u64()?;
        Ok(Claim {
            sender,
            proposal,
            seal,
        })
    }

    pub(crate) fn check_commit(&mut self, ring: Ring) -> Result<CheckCommit, Fault>
        ensures { ReadsFrom 2 (9 + certificate_size (stations_of ring)) (check_commit_in (stations_of ring)) self.old self.new result }
    {
        let sender = self.u8()?;
        let prepared = self.certificate(ring)?;
        let seal = self.u64()?;
        Ok(CheckCommit {
            sender,
            prepared,
            seal,
        })
    }

    pub(crate) fn inform(&mut self) -> Result<Inform, Fault>
        ensures { ReadsFrom 2 55 inform_in self.old self.new result }
    {
        let sender = self.u8()?;
        let proposal = self.proposal()?;
        let result = self.u64()?;
        let seal = self.u64()?;
        Ok(Inform {
            sender,
            proposal,
            result,
            seal,
        })
    }

    pub(crate) fn failure(&mut self) -> Result<Failure, Fault>
        ensures { ReadsFrom 2 13 failure_in self.old self.new result }
    {
        let sender = self.u8()?;
        let view = self.view(0, LAST_FAILED_VIEW)?;
        let seal = self.u64()?;
        Ok(Failure { sender, view, seal })
    }

    // A whole view state with its mark, since it also stands inside a new view.
    pub(crate) fn view_state(&mut self, ring: Ring) -> Result<ViewState, Fault>
        ensures { ReadsOn (state_at (stations_of ring)) self.old self.new result }
    {
        let at = self.place();
        if self.u16()? != marks::VS {
            return Err(Fault::Unreadable(at));
        }
        let sender = self.u8()?;
        let view = self.view(0, LAST_FAILED_VIEW)?;
        let commit = self.commit(ring)?;
        let prepared = self.prepared(ring)?;
        let seal = self.u64()?;
        Ok(ViewState {
            sender,
            view,
            commit,
            prepared,
            seal,
        })
    }

    pub(crate) fn new_view(&mut self, ring: Ring) -> Result<NewView, Fault>
        ensures { ReadsOnFrom 2 (new_view_in (stations_of ring)) self.old self.new result }
    {
        let sender = self.u8()?;
        let view = self.view(1, LAST_VIEW)?;
        let at = self.place();
        let count = self.u8()?;
        if count != ring.quorum() {
            return Err(Fault::Unreadable(at));
        }
        let states = self.several(ViewState::BLANK, usize::from(count), |cursor| {
            cursor.view_state(ring)
        })?;
        let seal = self.u64()?;
        Ok(NewView {
            sender,
            view,
            states,
            seal,
        })
    }
}
