// Numbers, highest byte first, and marks.
#![tactic(auto, using(records::proofs::Puts::put_one, records::proofs::Puts::put_two, records::proofs::Puts::put_four, records::proofs::Puts::put_eight), unfolding(records::specs::Writing::mark_bytes))]

ghost use Rattle.records.specs.Numbers.{put};
ghost use Rattle.records.specs.Writing.{mark_bytes};

use crate::pen::{Pen, Put};
use quorum::refusal::Fault;
use records::marks::Mark;

impl Put for u8 {
    ghost bytes = { put 1 };

    fn put(&self, pen: &mut Pen<'_>) -> Result<(), Fault> {
        pen.write(&self.to_be_bytes())
    }
}

impl Put for u16 {
    ghost bytes = { put 2 };

    fn put(&self, pen: &mut Pen<'_>) -> Result<(), Fault> {
        pen.write(&self.to_be_bytes())
    }
}

impl Put for u32 {
    ghost bytes = { put 4 };

    fn put(&self, pen: &mut Pen<'_>) -> Result<(), Fault> {
        pen.write(&self.to_be_bytes())
    }
}

impl Put for u64 {
    ghost bytes = { put 8 };

    fn put(&self, pen: &mut Pen<'_>) -> Result<(), Fault> {
        pen.write(&self.to_be_bytes())
    }
}

impl Put for Mark {
    ghost bytes = { mark_bytes };

    fn put(&self, pen: &mut Pen<'_>) -> Result<(), Fault> {
        u16::from(*self).put(pen)
    }
}
