// A record by eye. Standard input is a line `ring N`, then records as hex, one to a line. Each is laid out field by
// field with the places of its fields, or the refusal is named with what stands at its place. After lines `key NUMBER HEX`,
// with a signer's number and its key of 16 bytes, it also says of each seal whether it is genuine.
#![tactic(auto)]

mod keys;
mod page;
mod parts;

use chain::links::check_chain;
use hex_text::{Hex, decode};
use keys::Keys;
use page::Page;
use parts::title;
use quorum::figures::Ring;
use quorum::refusal::Fault;
use reader::reading::read_record;
use records::arrivals::Record;
use ring_lines::{NoRingLine, RingLine};
use std::io;
use std::io::{BufRead, BufReader};

// Where lines are answered, and what was told so far: the number of stations, and the signers' keys.
#[derive(Drop)]
struct Console<'a> {
    rt: &'a HostRuntime,
    // 0 until it is told: a record is then refused as in a ring of 0, and the answer says 0
    stations: usize,
    keys: Keys,
}

impl Console<'_> {
    fn take(&mut self, told: RingLine) -> Result<(), Fault> {
        match told {
            RingLine::Stations(stations) => self.stations = stations,
            RingLine::Key(signer) => self.keys.add(signer)?,
        }
        Ok(())
    }

    // A record that is readable and keeps the chain rule.
    fn read(&self, bytes: &[u8]) -> Result<Record, Fault> {
        let ring = Ring::new(self.stations)?;
        let message = read_record(ring, bytes);
        if let Ok(Record::Arrival(arrival)) = &message {
            check_chain(ring, arrival)?;
        }
        message
    }

    // What stands at the place of a refusal: the next bytes, at most eight, or the input's end.
    fn show_place(&self, fault: Fault, bytes: &[u8]) -> io::Result<()> {
        let place = fault.place();
        if let Fault::WrongSender(_) = fault {
            let stations = self.stations;
            return println!(self.rt; "  a ring has 1 to 10 stations, not {stations}");
        }
        if place >= bytes.len() {
            return println!(self.rt; "  at {place}: the input ends here");
        }
        let rest = &bytes[place..];
        let next = Hex(&rest[..rest.len().min(8)]);
        println!(self.rt; "  at {place}: {next}")
    }

    fn show(&self, bytes: &[u8]) -> io::Result<()> {
        match self.read(bytes) {
            Ok(message) => {
                let name = title(&message);
                println!(self.rt; "{name}")?;
                Page::new(self.rt, &self.keys).record(&message)
            }
            Err(fault) => {
                println!(self.rt; "refused {fault}")?;
                self.show_place(fault, bytes)
            }
        }
    }

    // A line that is a record, or is said to be none.
    fn record_line(&self, text: &str) -> anyhow::Result<()> {
        match decode(self.rt.alloc(), text.as_bytes())? {
            Some(bytes) => self.show(bytes.as_slice())?,
            None => println!(self.rt; "no hex: {text}")?,
        }
        Ok(())
    }
}

fn run(rt: &HostRuntime) -> anyhow::Result<()> {
    let mut console = Console {
        rt,
        stations: 0,
        keys: Keys::new(),
    };
    for line in BufReader::new(rt.alloc(), rt.stdin())?.lines(rt.alloc()) {
        let line = line?;
        match RingLine::try_from(line.as_str()) {
            Ok(told) => match console.take(told) {
                Ok(()) => println!(rt; "{told}")?,
                Err(fault) => println!(rt; "refused {fault}")?,
            },
            Err(NoRingLine::Other) => console.record_line(line.as_str())?,
            Err(none) => println!(rt; "{none}")?,
        }
    }
    Ok(())
}

fn main(rt: HostRuntime) -> anyhow::Result<()> {
    run(&rt)
}
