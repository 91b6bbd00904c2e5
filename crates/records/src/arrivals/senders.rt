// The station that sent a record.
ghost use Rattle.std.specs.Prelude.{◌≡◌};
ghost use Rattle.records.specs.Writing.{sent_by};

use crate::arrivals::Arrival;

impl Arrival {
    pub fn sender(&self) -> u8
        ensures { result ≡ sent_by self.now }
    {
        match self {
            Arrival::Propose(propose) => propose.sender,
            Arrival::Prepare(prepare) => prepare.sender,
            Arrival::CheckCommit(check) => check.sender,
            Arrival::Failure(failure) => failure.sender,
            Arrival::ViewState(state) => state.sender,
            Arrival::NewView(view) => view.sender,
        }
    }
}
