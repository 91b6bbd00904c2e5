// Records sent into a tray, each whole or not at all.
ghost use Rattle.std.specs.Prelude.{ℕ};
ghost use Rattle.outbox.specs.Trays.{SentInto, ReadsBackFrom};
ghost use Rattle.outbox.specs.Pens.{Wrote, Stays, SealsWith};
ghost use Rattle.records.specs.Writing.{record_bytes};
ghost use Rattle.records.specs.Statements.{covered, rest_bytes, under_seal};

use crate::pen::{Pen, Put};
use crate::tray::{Draft, Tray};
use quorum::refusal::Fault;
use records::arrivals::{Arrival, Record};
use seal_box::SealBox;

// What stands between what the seal covers and the seal: the seals in a CheckCommit's certificate.
#[tactic(auto, using(crate::proofs::Pens::wrote_none), unfolding(records::specs::Statements::rest_bytes, records::specs::Statements::rest_of))]
fn put_rest(message: &Record, pen: &mut Pen<'_>) -> Result<(), Fault>
    ensures { Wrote pen.old pen.new (rest_bytes message.now) result }
{
    match message {
        Record::Arrival(Arrival::CheckCommit(check)) => check.prepared.seals.put(pen),
        _ => Ok(()),
    }
}

// A record under the seal that is given for the bytes that it covers.
fn put_sealed<F: FnOnce(&[u8]) -> u64>(
    message: &Record,
    pen: &mut Pen<'_>,
    seal: F,
) -> Result<(), Fault>
    requires { F.IsAlwaysCallable seal }
    ensures stays { Stays pen.old pen.new }
    ensures wrote { (tag : ℕ) → SealsWith F.FnOnce seal (covered message.now) tag
        → Wrote pen.old pen.new (record_bytes (under_seal message.now tag)) result }
{
    let start = pen.fill.used;
    message.said().put(pen)?;
    let tag = seal(pen.since(start));
    put_rest(message, pen)?;
    tag.put(pen)
}

// That record in a tray.
fn send_sealed<F: FnOnce(&[u8]) -> u64>(
    message: &Record,
    tray: &mut Tray<'_>,
    seal: F,
) -> Result<(), Fault>
    requires { F.IsAlwaysCallable seal }
    ensures { (tag : ℕ) → SealsWith F.FnOnce seal (covered message.now) tag
        → SentInto tray.old tray.new (record_bytes (under_seal message.now tag)) result }
{
    let start = tray.fill.used;
    // a fill beyond the memory leaves no room
    if tray.memory.len() < start {
        return Err(Fault::NoRoom);
    }
    let mut draft = Draft {
        fill: &mut tray.fill,
        back_to: Some(start),
    };
    let mut pen = Pen {
        memory: tray.memory,
        fill: draft.fill,
    };
    put_sealed(message, &mut pen, seal)?;
    draft.back_to = None;
    Ok(())
}

// A record under the seal that it holds.
pub fn write(message: &Record, tray: &mut Tray<'_>) -> Result<(), Fault>
    ensures sent { SentInto tray.old tray.new (record_bytes message.now) result }
    ensures back { ReadsBackFrom tray.old tray.new message.now result }
{
    let seal = message.seal();
    send_sealed(message, tray, |_| seal)
}

// A record under a seal box's own seal, whatever seal it holds: the box seals the part of the tray just written.
pub fn send<B: SealBox>(seals: &B, message: &Record, tray: &mut Tray<'_>) -> Result<(), Fault>
    ensures sent { SentInto tray.old tray.new (record_bytes (under_seal message.now (B.tag seals.now (covered message.now)))) result }
    ensures back { ReadsBackFrom tray.old tray.new (under_seal message.now (B.tag seals.now (covered message.now))) result }
{
    send_sealed(message, tray, |covered| seals.seal(covered))
}
