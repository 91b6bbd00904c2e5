// The calls on a counter.
ghost use Rattle.std.specs.Prelude.{◌≡◌, true, length, IfOk};
ghost use Rattle.std.specs.Option.{option_copied};
ghost use Rattle.informs.specs.ProofsOfExecution.{Seals};
ghost use Rattle.counter.specs.Making.{made_of};
ghost use Rattle.counter.specs.Opening.{asks, has_room, opened, PostedInto};
ghost use Rattle.counter.specs.Hearing.{taken, hearing, SoundIn};
ghost use Rattle.counter.specs.Closing.{served, closing, writing_off, most_in, Released};

use crate::parts::{Asked, Ticket};
use crate::sealing::sealed;
use crate::state::Counter;
use informs::agreed::{Release, agreed, most};
use outbox::sending::write;
use outbox::tray::Tray;
use payload::Payload;
use quorum::figures::Ring;
use quorum::limits::{FIRST_CLIENT, FIRST_SEQUENCE};
use quorum::refusal::Fault;
use records::arrivals::{Inform, Record};
use records::places::{REQUEST_SEAL, SEAL_SIZE};
use records::request::Request;
use seal_box::SealBox;
use seals::admitting::admit_inform;

// the bytes of a request
const REQUEST_SIZE: usize = REQUEST_SEAL + SEAL_SIZE;

// where an inform holds its proposal, the view first
const VIEW_PLACE: usize = 3;

impl Counter {
    // A counter for a ring of so many stations and its box's client.
    pub fn new<B: SealBox>(stations: usize, seals: &B, first: u32) -> Result<Counter, Fault>
        ensures { result ≡ made_of stations (B.own seals.now) first }
    {
        let ring = Ring::new(stations)?;
        let client = seals.own();
        if client < FIRST_CLIENT {
            return Err(Fault::WrongSender(0));
        }
        if first < FIRST_SEQUENCE {
            return Err(Fault::OutOfRange(0));
        }
        Ok(Counter {
            ring,
            client,
            next: u64::from(first),
            current: None,
        })
    }

    // The sealed request of an opening, where none is open and the sequences are not used up.
    fn asking<B: SealBox>(&self, seals: &B, payload: Payload) -> Result<Request, Fault>
        ensures value { result ≡ asks true (B.tag seals.now) self.now payload.bytes }
        ensures long { IfOk result (λ q. length q.payload.bytes ≡ 16) }
    {
        if self.current.is_some() {
            return Err(Fault::NotNow(0));
        }
        let sequence = u32::try_from(self.next).map_err(|_| Fault::OutOfRange(0))?;
        let request = Request {
            client: self.client,
            sequence,
            payload,
            seal: 0,
        };
        sealed(seals, request)
    }

    // Opening seals a request into the tray and hands out its ticket. A refused opening uses up no sequence.
    pub fn open<B: SealBox>(
        &mut self,
        seals: &B,
        payload: Payload,
        tray: &mut Tray<'_>,
    ) -> Result<Ticket, Fault>
        ensures answer { (result, self.new) ≡ opened self.old (asks (has_room tray.old) (B.tag seals.now) self.old payload.bytes) }
        ensures tray { PostedInto tray.old tray.new (asks (has_room tray.old) (B.tag seals.now) self.old payload.bytes) }
        ensures sound { (genuine : Seals) → SoundIn genuine self.old.current → SoundIn genuine self.new.current }
    {
        if tray.memory.len().saturating_sub(tray.fill.used) < REQUEST_SIZE {
            return Err(Fault::NoRoom);
        }
        let request = self.asking(seals, payload)?;
        write(&Record::Request(request), tray)?;
        self.next += 1;
        self.current = Some(Asked {
            request,
            heard: [None; 10],
        });
        Ok(Ticket {
            client: request.client,
            sequence: request.sequence,
        })
    }

    // The inform that the bytes hold, where it is genuine and about the open request.
    fn accepted<B: SealBox>(&self, seals: &B, bytes: &[u8]) -> Result<Inform, Fault>
        ensures { result ≡ taken (B.genuine seals.now) self.now.stations self.now.current bytes.now }
    {
        let inform = admit_inform(seals, self.ring, bytes)?;
        match &self.current {
            Some(asked) if asked.request == inform.proposal.request => Ok(inform),
            _ => Err(Fault::NotNow(VIEW_PLACE)),
        }
    }

    // Hearing keeps a station's latest inform about the open request.
    pub fn hear<B: SealBox>(&mut self, seals: &B, bytes: &[u8]) -> Result<(), Fault>
        ensures answer { (result, self.new) ≡ hearing (B.genuine seals.now) self.old bytes.now }
        ensures sound { SoundIn (B.genuine seals.now) self.old.current → SoundIn (B.genuine seals.now) self.new.current }
    {
        let inform = self.accepted(seals, bytes)?;
        if let Some(asked) = &mut self.current {
            asked.heard[usize::from(inform.sender)] = Some(inform);
        }
        Ok(())
    }

    // The open request, where the ticket is for it.
    fn served(&self, ticket: &Ticket) -> Option<&Asked>
        ensures { option_copied result ≡ served self.now.current ticket.now }
    {
        let open = self.current.as_ref();
        open.filter(|asked| ticket.is_for(&asked.request))
    }

    // Closing gives what a quorum of stations tells alike, or the refusal with the ticket.
    pub fn close(&mut self, ticket: Ticket) -> Result<Release, (Fault, Ticket)>
        ensures answer { (result, self.new) ≡ closing self.old ticket }
        ensures proof { (genuine : Seals) → SoundIn genuine self.old.current → Released genuine self.old.stations self.old.current result }
    {
        let Some(asked) = self.served(&ticket) else {
            return Err((Fault::NotNow(0), ticket));
        };
        let Some(release) = agreed(self.ring, &asked.heard) else {
            return Err((Fault::TooEarly, ticket));
        };
        ticket.spend();
        self.current = None;
        Ok(release)
    }

    // Writing off ends the open request without an answer.
    pub fn write_off(&mut self, ticket: Ticket) -> Result<(), (Fault, Ticket)>
        ensures { (result, self.new) ≡ writing_off self.old ticket }
    {
        if self.served(&ticket).is_none() {
            return Err((Fault::NotNow(0), ticket));
        }
        ticket.spend();
        self.current = None;
        Ok(())
    }

    // How many stations' latest informs are alike, at the most.
    pub fn alike(&self) -> u8
        ensures { result ≡ most_in self.now.current }
    {
        let open = self.current.as_ref();
        open.map_or(0, |asked| most(&asked.heard))
    }
}
