// What the own seal of a record says, and what a station's seal in a certificate says.
ghost use Rattle.std.specs.Prelude.{◌≡◌};
ghost use Rattle.records.specs.Said.{meaning_of, says};
ghost use Rattle.records.specs.Statements.{said_by, statement_of};

use crate::arrivals::{Arrival, Record};
use crate::request::Proposal;
use crate::statement::{Said, Support};

impl Arrival {
    // Of a CheckCommit it covers the proposal and not the certificate's seals.
    pub fn said(&self) -> Said<'_>
        ensures { meaning_of result ≡ said_by self.now }
    {
        match self {
            Arrival::Propose(propose) => Said::Proposes(propose.sender, &propose.proposal),
            Arrival::Prepare(prepare) => Said::Prepares(prepare.sender, &prepare.proposal),
            Arrival::CheckCommit(check) => Said::Checks(check.sender, &check.prepared.proposal),
            Arrival::Failure(failure) => Said::Alerts(failure),
            Arrival::ViewState(state) => Said::Leaves(state),
            Arrival::NewView(view) => Said::Begins(view),
        }
    }
}

impl Record {
    pub fn said(&self) -> Said<'_>
        ensures { meaning_of result ≡ statement_of self.now }
    {
        match self {
            Record::Request(request) => Said::Asks(request),
            Record::Inform(inform) => Said::Informs(inform),
            Record::Arrival(arrival) => arrival.said(),
        }
    }
}

impl Support {
    pub fn said(self, station: u8, proposal: &Proposal) -> Said<'_>
        ensures { meaning_of result ≡ says self station proposal.now }
    {
        match self {
            Support::Prepared => Said::Prepares(station, proposal),
            Support::Committed => Said::Checks(station, proposal),
        }
    }
}
