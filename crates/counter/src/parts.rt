// What a counter holds, and what it hands out.
ghost use Rattle.std.specs.Prelude.{◌≡◌, ◌==◌, ◌&&◌};

use records::arrivals::Inform;
use records::request::Request;

// What a client holds for its open request. It is neither copied nor let go: closing or writing off spends it.
pub struct Ticket {
    pub(crate) client: u16,
    pub(crate) sequence: u32,
}

impl Ticket {
    // Is the ticket for this request?
    pub(crate) fn is_for(&self, request: &Request) -> bool
        ensures { result ≡ (request.now.client == self.now.client && request.now.sequence == self.now.sequence) }
    {
        request.client == self.client && request.sequence == self.sequence
    }

    pub(crate) fn spend(self) {
        let Ticket {
            client: _,
            sequence: _,
        } = self;
    }
}

// The request that is open, and each station's latest inform about it.
#[derive(Clone, Copy)]
pub struct Asked {
    pub(crate) request: Request,
    pub(crate) heard: [Option<Inform>; 10],
}
