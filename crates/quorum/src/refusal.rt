// A refusal: one enum from the reader of bytes up to the calls of a replica, so that a fault keeps its number, its
// layer and its place on the way.
ghost use Rattle.std.specs.Prelude.{◌≡◌};
ghost use Rattle.quorum.specs.Refusals.{number_of, layer_of, place_of};

use std::fmt;

#[derive(Clone, Copy, PartialEq, Eq, Debug)]
pub enum Fault {
    // the tray has too little room, or the book is not the one that the replica began with
    NoRoom,
    // the bytes are not exactly one record that the call takes
    Unreadable(usize),
    // the sender is no other station of the ring, or not the primary that the record needs
    WrongSender(usize),
    // a view state or a new view breaks the chain rule
    BrokenChain(usize),
    // a seal that was tried is not genuine
    NotGenuine(usize),
    // the record or the call is not for this view or this state
    NotNow(usize),
    // the round, the sequence or a size is out of range
    OutOfRange(usize),
    // the ledger has another request for the round
    AgainstLedger(usize),
    // it contradicts what is kept
    Conflict(usize),
    // a ticket is closed before enough replicas answered alike
    TooEarly,
}

// Who found a fault: the reading of records, the trying of senders and seals, or the call itself.
#[derive(Clone, Copy, PartialEq, Eq, Debug)]
pub enum Layer {
    Record,
    Seal,
    Call,
}

impl Fault {
    pub fn number(self) -> u8
        ensures { result ≡ number_of self }
    {
        match self {
            Fault::NoRoom => 1,
            Fault::Unreadable(_) => 2,
            Fault::WrongSender(_) => 3,
            Fault::BrokenChain(_) => 4,
            Fault::NotGenuine(_) => 5,
            Fault::NotNow(_) => 6,
            Fault::OutOfRange(_) => 7,
            Fault::AgainstLedger(_) => 8,
            Fault::Conflict(_) => 9,
            Fault::TooEarly => 10,
        }
    }

    pub fn layer(self) -> Layer
        ensures { result ≡ layer_of self }
    {
        match self {
            Fault::Unreadable(_) | Fault::BrokenChain(_) => Layer::Record,
            Fault::WrongSender(_) | Fault::NotGenuine(_) => Layer::Seal,
            _ => Layer::Call,
        }
    }

    pub fn place(self) -> usize
        ensures { result ≡ place_of self }
    {
        match self {
            Fault::NoRoom | Fault::TooEarly => 0,
            Fault::Unreadable(at) | Fault::WrongSender(at) | Fault::BrokenChain(at) => at,
            Fault::NotGenuine(at) | Fault::NotNow(at) | Fault::OutOfRange(at) => at,
            Fault::AgainstLedger(at) | Fault::Conflict(at) => at,
        }
    }
}

impl fmt::Display for Layer {
    fn fmt<W: fmt::Write>(&self, f: &mut fmt::Formatter<W>) -> fmt::Result {
        let word = match self {
            Layer::Record => "record",
            Layer::Seal => "seal",
            Layer::Call => "call",
        };
        write!(f, "{word}")
    }
}

// A refusal in one line: its number, its layer and its place.
impl fmt::Display for Fault {
    fn fmt<W: fmt::Write>(&self, f: &mut fmt::Formatter<W>) -> fmt::Result {
        let number = self.number();
        let layer = self.layer();
        let place = self.place();
        write!(f, "{number} {layer} {place}")
    }
}
