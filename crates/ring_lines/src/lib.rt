// What people tell a program of a ring, one to a line: `ring N`, and `key NUMBER HEX` with a signer's number and the
// digits of its 16 bytes.
#![tactic(auto)]

ghost use Rattle.std.specs.Prelude.{MatchResult, Some};
ghost use Rattle.ring_lines.specs.Told.{Tells, TellsNone, answer_to, answer_to_none};

use signer::SignerKey;
use std::fmt;

pub mod signer;

#[derive(Clone, Copy)]
pub enum RingLine {
    Stations(usize),
    Key(SignerKey),
}

// A line that is none of these: with the text that should be a number of stations or a key, or of another kind.
#[derive(Clone, Copy)]
pub enum NoRingLine<'a> {
    NoStations(&'a str),
    NoKey(&'a str),
    Other,
}

impl fmt::Display for RingLine {
    ghost output = { λ told. Some (answer_to told) };

    fn fmt<W: fmt::Write>(&self, f: &mut fmt::Formatter<W>) -> fmt::Result {
        match self {
            RingLine::Stations(stations) => write!(f, "ring of {stations}"),
            RingLine::Key(signer) => {
                let number = signer.number;
                write!(f, "key of {number}")
            }
        }
    }
}

impl fmt::Display for NoRingLine<'_> {
    ghost output = { λ none. Some (answer_to_none none) };

    fn fmt<W: fmt::Write>(&self, f: &mut fmt::Formatter<W>) -> fmt::Result {
        match self {
            NoRingLine::NoStations(text) => write!(f, "no number of stations: {text}"),
            NoRingLine::NoKey(text) => write!(f, "no key: {text}"),
            NoRingLine::Other => Ok(()),
        }
    }
}

impl<'a> TryFrom<&'a str> for RingLine {
    type Error = NoRingLine<'a>;

    ghost try_from_gives = { λ line r. MatchResult r (Tells line.now) (TellsNone line.now) };

    fn try_from(line: &'a str) -> Result<RingLine, NoRingLine<'a>> {
        if let Some(text) = line.strip_prefix("ring ") {
            let Ok(stations) = text.parse() else {
                return Err(NoRingLine::NoStations(text));
            };
            return Ok(RingLine::Stations(stations));
        }
        if let Some(text) = line.strip_prefix("key ") {
            let Ok(signer) = text.parse() else {
                return Err(NoRingLine::NoKey(text));
            };
            return Ok(RingLine::Key(signer));
        }
        Err(NoRingLine::Other)
    }
}
