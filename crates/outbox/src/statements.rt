// What a seal covers, for whoever tries one.
ghost use Rattle.outbox.specs.Trays.{Written};
ghost use Rattle.records.specs.Said.{meaning_of};
ghost use Rattle.records.specs.Statements.{said_bytes};

use crate::pen::{Pen, Put};
use crate::tray::Fill;
use quorum::refusal::Fault;
use records::statement::Said;

// The bytes that a seal over a statement covers, at the beginning of a buffer; the answer is where they end.
pub fn cover(said: Said<'_>, buffer: &mut [u8]) -> Result<usize, Fault>
    ensures { Written buffer.old buffer.new 0 (said_bytes (meaning_of said.entry)) result }
{
    let mut fill = Fill { used: 0 };
    let mut pen = Pen {
        memory: buffer,
        fill: &mut fill,
    };
    said.put(&mut pen)?;
    Ok(fill.used)
}
