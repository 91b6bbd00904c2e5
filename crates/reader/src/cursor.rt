// Bytes that are read from left to right, and the place that was reached.
ghost use Rattle.std.specs.Prelude.{ℕ, ◌≤◌, List, length, Result};
ghost use Rattle.quorum.specs.declared.refusal.Fault.{Fault};

use quorum::refusal::Fault;
use records::few::Few;

#[derive(Drop)]
pub(crate) struct Cursor<'a> {
    bytes: &'a [u8],
    at: usize,
    ghost within: { at ≤ length bytes.now },
}

impl<'a> Cursor<'a> {
    ghost use Rattle.std.specs.Prelude.{◌≡◌, ◌==◌, Ok};
    ghost use Rattle.records.specs.Reading.{check, part_at, number_at};
    ghost use Rattle.reader.specs.Cursor.{Reads, ReadsOn, AlwaysReadsOn, list_of};

    pub(crate) fn new(bytes: &'a [u8]) -> Self
        ensures bytes { result.bytes ≡ bytes.entry }
        ensures at { result.at ≡ 0 }
    {
        Cursor { bytes, at: 0 }
    }

    // The place of the next byte.
    pub(crate) fn place(&self) -> usize
        ensures { result ≡ self.now.at }
    {
        self.at
    }

    // Back to the first byte.
    pub(crate) fn rewind(&mut self)
        ensures bytes { self.new.bytes ≡ self.old.bytes }
        ensures at { self.new.at ≡ 0 }
    {
        self.at = 0;
    }

    // Nothing may stand after what was read.
    pub(crate) fn end(&self) -> Result<(), Fault>
        ensures { result ≡ check (length self.now.bytes.now == self.now.at) self.now.at (Ok tt) }
    {
        if self.at != self.bytes.len() {
            return Err(Fault::Unreadable(self.at));
        }
        Ok(())
    }

    // N bytes.
    pub(crate) fn part<const N: usize>(&mut self) -> Result<[u8; N], Fault>
        ensures { Reads N (part_at N) self.old self.new result }
    {
        match self.bytes[self.at..].first_chunk::<N>() {
            Some(part) => {
                self.at += N;
                Ok(*part)
            }
            None => Err(Fault::Unreadable(self.bytes.len())),
        }
    }

    pub(crate) fn u8(&mut self) -> Result<u8, Fault>
        ensures { Reads 1 (number_at 1) self.old self.new result }
    {
        Ok(u8::from_be_bytes(self.part()?))
    }

    pub(crate) fn u16(&mut self) -> Result<u16, Fault>
        ensures { Reads 2 (number_at 2) self.old self.new result }
    {
        Ok(u16::from_be_bytes(self.part()?))
    }

    pub(crate) fn u32(&mut self) -> Result<u32, Fault>
        ensures { Reads 4 (number_at 4) self.old self.new result }
    {
        Ok(u32::from_be_bytes(self.part()?))
    }

    pub(crate) fn u64(&mut self) -> Result<u64, Fault>
        ensures { Reads 8 (number_at 8) self.old self.new result }
    {
        Ok(u64::from_be_bytes(self.part()?))
    }

    // So many values, one after another; `blank` fills the places behind them.
    pub(crate) fn several<T: Copy, F: Fn(&mut Cursor<'_>) -> Result<T, Fault>, const N: usize>(
        &mut self,
        blank: T,
        count: usize,
        read: F,
    ) -> Result<Few<T, N>, Fault>
        requires callable { F.IsAlwaysCallable read }
        requires room { count ≤ N }
        ensures { (item : List ℕ → ℕ → Result (T × ℕ) Fault) → AlwaysReadsOn (F.post read) item → ReadsOn (list_of blank N item count) self.old self.new result }
    {
        let mut values = Few::new(blank);
        for _i in 0..count {
            values.push(read(self)?);
        }
        Ok(values)
    }
}
