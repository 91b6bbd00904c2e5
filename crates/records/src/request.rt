// What a client asks, and where in the order of requests a primary puts it.
use payload::Payload;

#[derive(Clone, Copy, PartialEq, Eq, Debug, Default)]
pub struct Request {
    pub client: u16,
    pub sequence: u32,
    pub payload: Payload,
    // the client's seal over its request
    pub seal: u64,
}

// A request at a round of a view.
#[derive(Clone, Copy, PartialEq, Eq, Debug, Default)]
pub struct Proposal {
    pub view: u32,
    pub round: u32,
    pub request: Request,
}

impl Proposal {
    // what fills a place that holds no proposal
    pub const BLANK: Proposal = Proposal {
        view: 0,
        round: 0,
        request: Request {
            client: 0,
            sequence: 0,
            payload: Payload { bytes: [0; 16] },
            seal: 0,
        },
    };
}
