// A client's desk: its counter, and the ticket of the request that is open.
ghost use Rattle.std.specs.Prelude.{◌≡◌, true, is_some};
ghost use Rattle.counter.specs.Closing.{served};

use counter::parts::Ticket;
use counter::state::Counter;
use informs::agreed::Release;
use keyed_box::KeyedBox;
use outbox::tray::Tray;
use payload::Payload;
use quorum::refusal::Fault;

// A counter with the ticket of its open request. Who leaves the desk writes the request off.
pub struct Pending {
    counter: Counter,
    ticket: Ticket,
    ghost fits: { is_some (served counter.current ticket) ≡ true },
}

impl Drop for Pending {
    fn drop(self) {
        let Pending {
            mut counter,
            ticket,
        } = self;
        counter.write_off(ticket).unwrap();
    }
}

impl Pending {
    pub fn open(
        counter: Counter,
        seals: &KeyedBox,
        payload: Payload,
        tray: &mut Tray<'_>,
    ) -> Result<Pending, (Fault, Counter)> {
        let mut asking = counter;
        match asking.open(seals, payload, tray) {
            Ok(ticket) => Ok(Pending {
                counter: asking,
                ticket,
            }),
            Err(fault) => Err((fault, asking)),
        }
    }

    pub fn hear(&mut self, seals: &KeyedBox, bytes: &[u8]) -> Result<(), Fault> {
        self.counter.hear(seals, bytes)
    }

    pub fn close(self) -> Result<(Counter, Release), (Fault, Pending)> {
        let Pending {
            mut counter,
            ticket,
        } = self;
        match counter.close(ticket) {
            Ok(release) => Ok((counter, release)),
            Err((fault, ticket)) => Err((fault, Pending { counter, ticket })),
        }
    }

    pub fn write_off(self) -> Counter {
        let Pending {
            mut counter,
            ticket,
        } = self;
        counter.write_off(ticket).unwrap();
        counter
    }

    pub fn alike(&self) -> u8 {
        self.counter.alike()
    }
}
