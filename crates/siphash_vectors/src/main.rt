// Runs SipHash-2-4 on all its published vectors, and says of each whether the tag is the published one.
#![tactic(auto)]

mod known;
mod published;

use known::{empty_message, whole_word, worked_example};
use published::{EXAMPLE, KEY, TAGS};
use siphash::siphash;
use std::{array, io};

fn verdict(tag: u64, published: u64) -> &'static str {
    if tag == published {
        "as published"
    } else {
        "WRONG"
    }
}

fn main(rt: HostRuntime) -> io::Result<()> {
    // 00, 01, 02, .. up to 3f
    let message: [u8; 64] = array::from_fn(|i| i as u8);
    let tags: [u64; 64] = array::from_fn(|n| siphash(&KEY, &message[..n]));
    for (n, (tag, published)) in tags.iter().zip(&TAGS).enumerate() {
        let word = verdict(*tag, *published);
        println!(rt; "{n:2} bytes: {tag:016x} {word}")?;
    }
    let right = tags
        .iter()
        .zip(&TAGS)
        .filter(|(tag, published)| tag == published)
        .count();
    println!(rt; "{right} of 64 as published")?;
    let known = [
        (empty_message(), TAGS[0]),
        (whole_word(), TAGS[8]),
        (worked_example(), EXAMPLE),
    ];
    for (tag, published) in known {
        let word = verdict(tag, published);
        println!(rt; "known beforehand: {tag:016x} {word}")?;
    }
    Ok(())
}
