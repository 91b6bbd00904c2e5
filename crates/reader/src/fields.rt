// The fields of records.
ghost use Rattle.records.specs.Reading.{view_at, request_at, proposal_at};
ghost use Rattle.reader.specs.Cursor.{Reads};

use crate::cursor::Cursor;
use payload::Payload;
use quorum::limits::{FIRST_CLIENT, FIRST_SEQUENCE, LAST_VIEW};
use quorum::refusal::Fault;
use records::request::{Proposal, Request};

impl<'a> Cursor<'a> {
    // A view between two bounds.
    pub(crate) fn view(&mut self, low: u32, high: u32) -> Result<u32, Fault>
        ensures { Reads 4 (view_at low high) self.old self.new result }
    {
        let at = self.place();
        let view = self.u32()?;
        if view < low || view > high {
            return Err(Fault::Unreadable(at));
        }
        Ok(view)
    }

    pub(crate) fn request(&mut self) -> Result<Request, Fault>
        ensures { Reads 30 request_at self.old self.new result }
    {
        let at = self.place();
        let client = self.u16()?;
        if client < FIRST_CLIENT {
            return Err(Fault::Unreadable(at));
        }
        let sequence = self.u32()?;
        if sequence < FIRST_SEQUENCE {
            return Err(Fault::Unreadable(at + 2));
        }
        let payload = Payload {
            bytes: self.part()?,
        };
        let seal = self.u64()?;
        Ok(Request {
            client,
            sequence,
            payload,
            seal,
        })
    }

    pub(crate) fn proposal(&mut self) -> Result<Proposal, Fault>
        ensures { Reads 38 proposal_at self.old self.new result }
    {
        let view = self.view(0, LAST_VIEW)?;
        let round = self.u32()?;
        let request = self.request()?;
        Ok(Proposal {
            view,
            round,
            request,
        })
    }
}
