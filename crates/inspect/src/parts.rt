// The records laid out on a page.
use crate::page::Page;
use hex_text::Hex;
use records::arrivals::{Arrival, Inform, NewView, Record, ViewState};
use records::certificate::Certificate;
use records::request::{Proposal, Request};
use records::statement::{Said, Support};
use std::io;

// The mark and the name of a record's kind.
pub fn title(message: &Record) -> &'static str {
    match message {
        Record::Request(_) => "RQ Request",
        Record::Inform(_) => "IN Inform",
        Record::Arrival(Arrival::Propose(_)) => "PP Propose",
        Record::Arrival(Arrival::Prepare(_)) => "PE Prepare",
        Record::Arrival(Arrival::CheckCommit(_)) => "CC CheckCommit",
        Record::Arrival(Arrival::Failure(_)) => "FA Failure",
        Record::Arrival(Arrival::ViewState(_)) => "VS ViewState",
        Record::Arrival(Arrival::NewView(_)) => "NV NewView",
    }
}

impl Page<'_> {
    fn request(&mut self, request: &Request) -> io::Result<()> {
        self.field("client", request.client, 2)?;
        self.field("sequence", request.sequence, 4)?;
        let payload = &request.payload.bytes;
        self.field("payload", Hex(payload), payload.len())?;
        self.seal(request.client, Said::Asks(request), request.seal)
    }

    fn proposal(&mut self, proposal: &Proposal) -> io::Result<()> {
        self.open("proposal")?;
        self.field("view", proposal.view, 4)?;
        self.field("round", proposal.round, 4)?;
        self.open("request")?;
        self.request(&proposal.request)?;
        self.close();
        self.close();
        Ok(())
    }

    fn certificate(&mut self, support: Support, certificate: &Certificate) -> io::Result<()> {
        self.open(match support {
            Support::Prepared => "prepared certificate",
            Support::Committed => "commit certificate",
        })?;
        self.proposal(&certificate.proposal)?;
        self.mask(&certificate.seals)?;
        for (station, seal) in (0u8..).zip(&certificate.seals) {
            if let Some(tag) = seal {
                let said = support.said(station, &certificate.proposal);
                self.seal(u16::from(station), said, *tag)?;
            }
        }
        self.close();
        Ok(())
    }

    // Certificates behind their count.
    fn certificates(
        &mut self,
        name: &str,
        support: Support,
        certificates: &[Certificate],
    ) -> io::Result<()> {
        self.field(name, certificates.len(), 1)?;
        for certificate in certificates {
            self.certificate(support, certificate)?;
        }
        Ok(())
    }

    fn sender(&mut self, sender: u8) -> io::Result<()> {
        self.skip(2);
        self.field("sender", sender, 1)
    }

    fn view(&mut self, view: u32) -> io::Result<()> {
        self.field("view", view, 4)
    }

    fn view_state(&mut self, state: &ViewState) -> io::Result<()> {
        self.sender(state.sender)?;
        self.view(state.view)?;
        self.certificates("commits", Support::Committed, state.commit.as_slice())?;
        self.certificates("prepared", Support::Prepared, state.prepared.as_slice())?;
        self.seal(u16::from(state.sender), Said::Leaves(state), state.seal)
    }

    fn new_view(&mut self, view: &NewView) -> io::Result<()> {
        self.sender(view.sender)?;
        self.view(view.view)?;
        self.field("view states", view.states.as_slice().len(), 1)?;
        for state in view.states.as_slice() {
            self.open("VS ViewState")?;
            self.view_state(state)?;
            self.close();
        }
        self.seal(u16::from(view.sender), Said::Begins(view), view.seal)
    }

    fn inform(&mut self, inform: &Inform) -> io::Result<()> {
        self.sender(inform.sender)?;
        self.proposal(&inform.proposal)?;
        self.field("result", inform.result, 8)?;
        self.seal(u16::from(inform.sender), Said::Informs(inform), inform.seal)
    }

    fn arrival(&mut self, arrival: &Arrival) -> io::Result<()> {
        match arrival {
            Arrival::Propose(claim) | Arrival::Prepare(claim) => {
                self.sender(claim.sender)?;
                self.proposal(&claim.proposal)?;
            }
            Arrival::CheckCommit(check) => {
                self.sender(check.sender)?;
                self.certificate(Support::Prepared, &check.prepared)?;
            }
            Arrival::Failure(failure) => {
                self.sender(failure.sender)?;
                self.view(failure.view)?;
            }
            Arrival::ViewState(state) => return self.view_state(state),
            Arrival::NewView(view) => return self.new_view(view),
        }
        self.seal(u16::from(arrival.sender()), arrival.said(), arrival.seal())
    }

    // All fields of a record, with their places, and what the keys say of its seals.
    pub fn record(&mut self, message: &Record) -> io::Result<()> {
        match message {
            Record::Request(request) => {
                self.skip(2);
                self.request(request)
            }
            Record::Inform(inform) => self.inform(inform),
            Record::Arrival(arrival) => self.arrival(arrival),
        }
    }
}
