// Runs the stored cases that were made apart from this code, and says which come out wrong.
//
// reader_cases.txt, the framing reader: `N HEX ok LENGTH` or `N HEX refused NUMBER LAYER PLACE`.
// arrival_cases.txt, what arrives at station OWN of a ring of N: `N OWN HEX passes` or `N OWN HEX refused NUMBER LAYER
// PLACE`, under a keyed box in which each of the stations 0 to N - 1 and the clients 1000, 1001 and 1002 has as its key
// sixteen bytes of the value (its number mod 251).
//
// HEX is `-` for no bytes.
#![tactic(auto)]

use anyhow::{Context, anyhow};
use hex_text::decode;
use keyed_box::KeyedBox;
use quorum::figures::Ring;
use quorum::refusal::Fault;
use reader::framing::frame;
use seals::admitting::admit;
use siphash::Key;
use std::alloc::Global;
use std::fs;

const CLIENTS: [u16; 3] = [1000, 1001, 1002];

fn bytes_of(heap: Global, text: &str) -> anyhow::Result<Vec<u8>> {
    if text == "-" {
        return Ok(Vec::new(heap));
    }
    match decode(heap, text.as_bytes())? {
        Some(bytes) => Ok(bytes),
        None => Err(anyhow!("a case whose bytes are no hex")),
    }
}

fn key_of(number: u16) -> Key {
    Key([(number % 251) as u8; 16])
}

// The box of one station, with the keys of all.
fn box_of(stations: u16, own: u16) -> Result<KeyedBox, Fault> {
    let mut seals = KeyedBox::new(own, key_of(own))?;
    for station in 0..stations {
        if station != own {
            seals.add(station, key_of(station))?;
        }
    }
    for client in CLIENTS {
        seals.add(client, key_of(client))?;
    }
    Ok(seals)
}

fn admitted(stations: u16, own: u16, bytes: &[u8]) -> Result<(), Fault> {
    let ring = Ring::new(stations as usize)?;
    let seals = box_of(stations, own)?;
    admit(&seals, ring, own, bytes)?;
    Ok(())
}

// Does the framing reader say of a case what stands at its end?
fn framing_agrees(heap: Global, case: &str) -> anyhow::Result<bool> {
    let mut parts = case.splitn(3, ' ');
    let (Some(stations), Some(text), Some(expected)) = (parts.next(), parts.next(), parts.next())
    else {
        return Err(anyhow!("a case without three parts"));
    };
    let stations = stations.parse()?;
    let bytes = bytes_of(heap, text)?;
    let said = match frame(stations, &bytes) {
        Ok(record) => {
            let length = record.len();
            format!(in heap; "ok {length}")?
        }
        Err(fault) => format!(in heap; "refused {fault}")?,
    };
    Ok(said.as_str() == expected)
}

// Does a station say of what arrives what stands at the end of the case?
fn arrival_agrees(heap: Global, case: &str) -> anyhow::Result<bool> {
    let mut parts = case.splitn(4, ' ');
    let (Some(stations), Some(own), Some(text)) = (parts.next(), parts.next(), parts.next()) else {
        return Err(anyhow!("a case without four parts"));
    };
    let expected = parts.next().context("a case without an answer")?;
    let (stations, own) = (stations.parse()?, own.parse()?);
    let bytes = bytes_of(heap, text)?;
    let said = match admitted(stations, own, &bytes) {
        Ok(()) => String::from_str(heap, "passes")?,
        Err(fault) => format!(in heap; "refused {fault}")?,
    };
    Ok(said.as_str() == expected)
}

fn run<F: Fn(Global, &str) -> anyhow::Result<bool>>(
    rt: &HostRuntime,
    file: &str,
    agrees: F,
) -> anyhow::Result<()>
    requires { F.IsAlwaysCallable agrees }
{
    let text = fs::read_to_string(rt, file)?;
    let mut right: u32 = 0;
    let mut wrong: u32 = 0;
    for case in text.lines() {
        if agrees(rt.alloc(), case)? {
            right = right.saturating_add(1);
        } else {
            wrong = wrong.saturating_add(1);
            println!(rt; "wrong: {case}")?;
        }
    }
    println!(rt; "{file}: {right} cases right, {wrong} wrong")?;
    Ok(())
}

fn main(rt: HostRuntime) -> anyhow::Result<()> {
    run(&rt, "reader_cases.txt", framing_agrees)?;
    run(&rt, "arrival_cases.txt", arrival_agrees)
}
