// From a request to a release. Standard input has one command to a line: `ring N`, `key NUMBER HEX` for each signer,
// `client NUMBER SEQUENCE`, and then `open PAYLOAD`, `hear RECORD`, `close` and `write-off`. Each is answered in a line.
#![tactic(auto)]

mod command;
mod desk;
mod setup;

use command::{Command, NoCommand};
use counter::state::Counter;
use desk::Pending;
use hex_text::{Hex, array, decode};
use keyed_box::KeyedBox;
use outbox::tray::{Fill, Tray};
use payload::Payload;
use quorum::refusal::Fault;
use ring_lines::{NoRingLine, RingLine};
use setup::Setup;
use std::io;
use std::io::{BufRead, BufReader};

// Where the client stands.
#[derive(Drop)]
enum Bench {
    // not made yet
    Unset,
    // no request is open
    Idle(KeyedBox, Counter),
    // a request is open
    Waiting(KeyedBox, Pending),
}

// A client's number and its first sequence number.
fn client_of(text: &str) -> Option<(u16, u32)> {
    let (number, first) = text.split_once(' ')?;
    Some((number.parse().ok()?, first.parse().ok()?))
}

// Where lines are answered, and what was told before a client starts.
#[derive(Drop)]
struct Console<'a> {
    rt: &'a HostRuntime,
    setup: Setup,
}

impl Console<'_> {
    fn refused(&self, fault: Fault) -> io::Result<()> {
        println!(self.rt; "refused {fault}")
    }

    fn start(&self, seals: KeyedBox, first: u32) -> io::Result<Bench> {
        match self.setup.counter(&seals, first) {
            Ok(counter) => {
                println!(self.rt; "client starts at {first}")?;
                Ok(Bench::Idle(seals, counter))
            }
            Err(fault) => {
                self.refused(fault)?;
                Ok(Bench::Unset)
            }
        }
    }

    fn make(&self, text: &str) -> io::Result<Bench> {
        let Some((number, first)) = client_of(text) else {
            println!(self.rt; "no client: {text}")?;
            return Ok(Bench::Unset);
        };
        match self.setup.seals(number) {
            None => println!(self.rt; "no key for {number}")?,
            Some(Ok(seals)) => return self.start(seals, first),
            Some(Err(fault)) => self.refused(fault)?,
        }
        Ok(Bench::Unset)
    }

    fn ask(&self, seals: KeyedBox, counter: Counter, payload: Payload) -> io::Result<Bench> {
        let mut memory = [0; 32];
        let mut tray = Tray {
            memory: &mut memory,
            fill: Fill { used: 0 },
        };
        match Pending::open(counter, &seals, payload, &mut tray) {
            Ok(pending) => {
                let request = Hex(tray.memory);
                println!(self.rt; "request {request}")?;
                Ok(Bench::Waiting(seals, pending))
            }
            Err((fault, counter)) => {
                self.refused(fault)?;
                Ok(Bench::Idle(seals, counter))
            }
        }
    }

    fn open(&self, bench: Bench, text: &str) -> io::Result<Bench> {
        let Some(bytes) = array(text.as_bytes()) else {
            println!(self.rt; "no payload: {text}")?;
            return Ok(bench);
        };
        match bench {
            Bench::Idle(seals, counter) => self.ask(seals, counter, Payload { bytes }),
            Bench::Waiting(seals, pending) => {
                self.refused(Fault::NotNow(0))?;
                Ok(Bench::Waiting(seals, pending))
            }
            Bench::Unset => {
                println!(self.rt; "no client")?;
                Ok(Bench::Unset)
            }
        }
    }

    fn hear(&self, bench: &mut Bench, text: &str) -> anyhow::Result<()> {
        let Some(bytes) = decode(self.rt.alloc(), text.as_bytes())? else {
            println!(self.rt; "no record: {text}")?;
            return Ok(());
        };
        let (answer, alike) = match bench {
            Bench::Unset => {
                println!(self.rt; "no client")?;
                return Ok(());
            }
            Bench::Idle(seals, counter) => (counter.hear(seals, &bytes), counter.alike()),
            Bench::Waiting(seals, pending) => (pending.hear(seals, &bytes), pending.alike()),
        };
        let quorum = self.setup.quorum();
        match answer {
            Ok(()) => println!(self.rt; "heard {alike} of {quorum} alike")?,
            Err(fault) => self.refused(fault)?,
        }
        Ok(())
    }

    fn close(&self, bench: Bench) -> io::Result<Bench> {
        let Bench::Waiting(seals, pending) = bench else {
            println!(self.rt; "no ticket")?;
            return Ok(bench);
        };
        match pending.close() {
            Ok((counter, release)) => {
                let (view, round, result) = (release.view, release.round, release.result);
                println!(self.rt; "release view {view} round {round} result {result}")?;
                Ok(Bench::Idle(seals, counter))
            }
            Err((fault, pending)) => {
                let (alike, quorum) = (pending.alike(), self.setup.quorum());
                println!(self.rt; "refused {fault}: {alike} of {quorum} alike")?;
                Ok(Bench::Waiting(seals, pending))
            }
        }
    }

    fn write_off(&self, bench: Bench) -> io::Result<Bench> {
        let Bench::Waiting(seals, pending) = bench else {
            println!(self.rt; "no ticket")?;
            return Ok(bench);
        };
        println!(self.rt; "written off")?;
        Ok(Bench::Idle(seals, pending.write_off()))
    }

    fn step(&self, mut bench: Bench, line: &str) -> anyhow::Result<Bench> {
        match Command::try_from(line) {
            Ok(Command::Client(text)) => bench = self.make(text)?,
            Ok(Command::Open(text)) => bench = self.open(bench, text)?,
            Ok(Command::Hear(text)) => self.hear(&mut bench, text)?,
            Ok(Command::Close) => bench = self.close(bench)?,
            Ok(Command::WriteOff) => bench = self.write_off(bench)?,
            Err(NoCommand) => println!(self.rt; "no such command")?,
        }
        Ok(bench)
    }
}

fn run(rt: &HostRuntime) -> anyhow::Result<()> {
    let mut console = Console {
        rt,
        setup: Setup::new(rt.alloc()),
    };
    let mut bench = Bench::Unset;
    for line in BufReader::new(rt.alloc(), rt.stdin())?.lines(rt.alloc()) {
        let line = line?;
        match RingLine::try_from(line.as_str()) {
            Ok(told) => {
                console.setup.take(told)?;
                println!(rt; "{told}")?;
            }
            Err(NoRingLine::Other) => bench = console.step(bench, line.as_str())?,
            Err(none) => println!(rt; "{none}")?,
        }
    }
    Ok(())
}

fn main(rt: HostRuntime) -> anyhow::Result<()> {
    run(&rt)
}
