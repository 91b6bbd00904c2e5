// Bytes as exactly one record that a call takes.
ghost use Rattle.std.specs.Prelude.{◌≡◌, ℕ, List, Result};
ghost use Rattle.quorum.specs.declared.refusal.Fault.{Fault};
ghost use Rattle.quorum.specs.Rings.{stations_of};
ghost use Rattle.records.specs.declared.marks.Mark.{Mark};
ghost use Rattle.records.specs.Reading.{mark_at, request_behind, inform_behind, arrival_behind, record_behind, request_of, inform_of, arrival_of, record_of, first_of};
ghost use Rattle.reader.specs.Backs.{RequestFrom, InformFrom, ArrivalFrom, RecordFrom, FirstFrom};
ghost use Rattle.reader.specs.Cursor.{ReadsFrom, ReadsOnFrom, ReadsBehind, whole_behind};

use crate::cursor::Cursor;
use quorum::figures::Ring;
use quorum::refusal::Fault;
use records::arrivals::{Arrival, Inform, Record};
use records::marks::Mark;
use records::request::Request;

impl<'a> Cursor<'a> {
    // The mark that the bytes begin with.
    fn mark(&mut self) -> Result<Mark, Fault>
        ensures { ReadsFrom 0 2 mark_at self.old self.new result }
    {
        Mark::try_from(self.u16()?).map_err(|_| Fault::Unreadable(0))
    }

    fn request_behind(&mut self, mark: Mark) -> Result<Request, Fault>
        ensures { ReadsOnFrom 2 (λ bs. request_behind bs mark) self.old self.new result }
    {
        match mark {
            Mark::Request => self.request(),
            _ => Err(Fault::Unreadable(0)),
        }
    }

    fn inform_behind(&mut self, mark: Mark) -> Result<Inform, Fault>
        ensures { ReadsOnFrom 2 (λ bs. inform_behind bs mark) self.old self.new result }
    {
        match mark {
            Mark::Inform => self.inform(),
            _ => Err(Fault::Unreadable(0)),
        }
    }

    // Both this and the next stay calls: laid into a caller, their records would be copied certificate by certificate.
    #[inline(never)]
    fn arrival_behind(&mut self, ring: Ring, mark: Mark) -> Result<Arrival, Fault>
        ensures { ReadsOnFrom 2 (λ bs. arrival_behind (stations_of ring) bs mark) self.old self.new result }
    {
        match mark {
            Mark::Propose => Ok(Arrival::Propose(self.claim()?)),
            Mark::Prepare => Ok(Arrival::Prepare(self.claim()?)),
            Mark::CheckCommit => Ok(Arrival::CheckCommit(self.check_commit(ring)?)),
            Mark::Failure => Ok(Arrival::Failure(self.failure()?)),
            Mark::ViewState => {
                self.rewind();
                Ok(Arrival::ViewState(self.view_state(ring)?))
            }
            Mark::NewView => Ok(Arrival::NewView(self.new_view(ring)?)),
            Mark::Request | Mark::Inform => Err(Fault::Unreadable(0)),
        }
    }

    #[inline(never)]
    fn record_behind(&mut self, ring: Ring, mark: Mark) -> Result<Record, Fault>
        ensures { ReadsOnFrom 2 (λ bs. record_behind (stations_of ring) bs mark) self.old self.new result }
    {
        match mark {
            Mark::Request => Ok(Record::Request(self.request()?)),
            Mark::Inform => Ok(Record::Inform(self.inform()?)),
            _ => Ok(Record::Arrival(self.arrival_behind(ring, mark)?)),
        }
    }
}

// The bytes as exactly one record, of which `read` reads what stands behind the mark.
fn whole<T: Drop, F: FnOnce(&mut Cursor<'_>, Mark) -> Result<T, Fault>>(
    bytes: &[u8],
    read: F,
) -> Result<T, Fault>
    requires { F.IsAlwaysCallable read }
    ensures { (behind : List ℕ → Mark → Result (T × ℕ) Fault) → ReadsBehind (F.post read) behind → result ≡ whole_behind behind bytes.now }
{
    let mut cursor = Cursor::new(bytes);
    let mark = cursor.mark()?;
    // a large record is handed on as it came, and not taken out and wrapped again
    let record = read(&mut cursor, mark);
    if record.is_ok() {
        cursor.end()?;
    }
    record
}

// The bytes as one request; what is read is in range, and writing it gives the bytes again.
pub fn read_request(bytes: &[u8]) -> Result<Request, Fault>
    ensures value { result ≡ request_of bytes.now }
    ensures back { RequestFrom bytes.now result }
{
    whole(bytes, |cursor, mark| cursor.request_behind(mark))
}

// The bytes as one inform; what is read is in range, and writing it gives the bytes again.
pub fn read_inform(bytes: &[u8]) -> Result<Inform, Fault>
    ensures value { result ≡ inform_of bytes.now }
    ensures back { InformFrom bytes.now result }
{
    whole(bytes, |cursor, mark| cursor.inform_behind(mark))
}

// The bytes as one record that stations send each other; it is in range, and writing it gives the bytes again.
pub fn read_arrival(ring: Ring, bytes: &[u8]) -> Result<Arrival, Fault>
    ensures value { result ≡ arrival_of (stations_of ring) bytes.now }
    ensures back { ArrivalFrom (stations_of ring) bytes.now result }
{
    whole(bytes, |cursor, mark| cursor.arrival_behind(ring, mark))
}

// The bytes as one record of any kind; it is in range, and writing it gives the bytes again.
pub fn read_record(ring: Ring, bytes: &[u8]) -> Result<Record, Fault>
    ensures value { result ≡ record_of (stations_of ring) bytes.now }
    ensures back { RecordFrom (stations_of ring) bytes.now result }
{
    whole(bytes, |cursor, mark| cursor.record_behind(ring, mark))
}

// The first whole record that the bytes begin with, of any kind, and the place after it.
pub fn first_record(ring: Ring, bytes: &[u8]) -> Result<(Record, usize), Fault>
    ensures value { result ≡ first_of (stations_of ring) bytes.now }
    ensures back { FirstFrom (stations_of ring) bytes.now result }
{
    let mut cursor = Cursor::new(bytes);
    let mark = cursor.mark()?;
    let record = cursor.record_behind(ring, mark)?;
    Ok((record, cursor.place()))
}
