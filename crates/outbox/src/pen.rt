// A pen puts bytes into memory behind a fill, and moves the fill.
ghost use Rattle.std.specs.Prelude.{◌≡◌, ◌≤◌, ℕ, List, ◌++◌, length};
ghost use Rattle.std.specs.List.{flat_map, between};
ghost use Rattle.records.specs.Numbers.{put};

use crate::tray::Fill;
use quorum::refusal::Fault;

#[derive(Drop)]
pub(crate) struct Pen<'a> {
    pub(crate) memory: &'a mut [u8],
    pub(crate) fill: &'a mut Fill,
    ghost inside: { fill.now.used ≤ length memory.now },
}

// A part of a record, as the bytes that it is written as.
pub(crate) trait Put {
    ghost use Rattle.outbox.specs.Pens.{Wrote};

    ghost bytes: { Self → List ℕ };

    fn put(&self, pen: &mut Pen<'_>) -> Result<(), Fault>
        ensures { Wrote pen.old pen.new (bytes self.now) result };
}

impl Pen<'_> {
    ghost use Rattle.outbox.specs.Pens.{Wrote};

    // What was put behind a place.
    pub(crate) fn since(&self, start: usize) -> &[u8]
        requires { start ≤ self.now.fill.now.used }
        ensures { result.now ≡ between start self.now.fill.now.used self.now.memory.now }
    {
        &self.memory[start..self.fill.used]
    }

    pub(crate) fn write(&mut self, bytes: &[u8]) -> Result<(), Fault>
        ensures { Wrote self.old self.new bytes.now result }
    {
        let start = self.fill.used;
        if self.memory.len() - start < bytes.len() {
            return Err(Fault::NoRoom);
        }
        let end = start + bytes.len();
        self.memory[start..end].copy_from_slice(bytes);
        self.fill.used = end;
        Ok(())
    }

    // Parts one after another.
    pub(crate) fn each<T: Put>(&mut self, parts: &[T]) -> Result<(), Fault>
        ensures { Wrote self.old self.new (flat_map T.bytes parts.now) result }
    {
        for part in parts {
            part.put(self)?;
        }
        Ok(())
    }

    // Parts behind their count.
    pub(crate) fn counted<T: Put>(&mut self, parts: &[T]) -> Result<(), Fault>
        requires { length parts.now ≤ 255 }
        ensures { Wrote self.old self.new (put 1 (length parts.now) ++ flat_map T.bytes parts.now) result }
    {
        (parts.len() as u8).put(self)?;
        self.each(parts)
    }
}
