// The own seal of a record, which stands last in it.
ghost use Rattle.std.specs.Prelude.{◌≡◌};
ghost use Rattle.records.specs.Writing.{seal_of};
ghost use Rattle.records.specs.Statements.{own_seal};

use crate::arrivals::{Arrival, Record};

impl Arrival {
    pub fn seal(&self) -> u64
        ensures { result ≡ seal_of self.now }
    {
        match self {
            Arrival::Propose(propose) => propose.seal,
            Arrival::Prepare(prepare) => prepare.seal,
            Arrival::CheckCommit(check) => check.seal,
            Arrival::Failure(failure) => failure.seal,
            Arrival::ViewState(state) => state.seal,
            Arrival::NewView(view) => view.seal,
        }
    }
}

impl Record {
    pub fn seal(&self) -> u64
        ensures { result ≡ own_seal self.now }
    {
        match self {
            Record::Request(request) => request.seal,
            Record::Inform(inform) => inform.seal,
            Record::Arrival(arrival) => arrival.seal(),
        }
    }
}
