// A page on which a record is laid out field by field: each line has the field's name, the place of its first byte and
// its value, and of a seal whether it is genuine, once keys are given.
use crate::keys::Keys;
use records::places::SEAL_SIZE;
use records::statement::Said;
use std::{fmt, io};

#[derive(Drop)]
pub struct Page<'a> {
    rt: &'a HostRuntime,
    keys: &'a Keys,
    // the place of the next field
    at: usize,
    // how far the fields of a nested part are indented
    indent: usize,
}

impl<'a> Page<'a> {
    pub fn new(rt: &'a HostRuntime, keys: &'a Keys) -> Page<'a> {
        Page {
            rt,
            keys,
            at: 0,
            indent: 2,
        }
    }

    // A field that is not shown, as the mark that the first line has already.
    pub fn skip(&mut self, size: usize) {
        self.at = self.at.saturating_add(size);
    }

    // The name of a nested part; its fields follow.
    pub fn open(&mut self, name: &str) -> io::Result<()> {
        let (at, indent) = (self.at, self.indent);
        println!(self.rt; "{:indent$}{name} at {at}:", "")?;
        self.indent = self.indent.saturating_add(2);
        Ok(())
    }

    pub fn close(&mut self) {
        self.indent = self.indent.saturating_sub(2);
    }

    // A field of a size in bytes, by what is shown of it.
    pub fn field(
        &mut self,
        name: &str,
        value: impl fmt::Display + Drop,
        size: usize,
    ) -> io::Result<()> {
        let (at, indent) = (self.at, self.indent);
        println!(self.rt; "{:indent$}{name} at {at}: {value}", "")?;
        self.skip(size);
        Ok(())
    }

    // A signer's seal, with what the keys say of it.
    pub fn seal(&mut self, signer: u16, said: Said<'_>, tag: u64) -> io::Result<()> {
        let verdict = self.keys.verdict(signer, said, tag);
        self.field("seal", format_args!("{tag:016x}{verdict}"), SEAL_SIZE)
    }

    // The mask of a certificate, as the stations that it shows.
    pub fn mask(&mut self, seals: &[Option<u64>]) -> io::Result<()> {
        let (at, indent) = (self.at, self.indent);
        print!(self.rt; "{:indent$}mask at {at}: stations", "")?;
        for (station, seal) in seals.iter().enumerate() {
            if seal.is_some() {
                print!(self.rt; " {station}")?;
            }
        }
        println!(self.rt; "")?;
        self.skip(2);
        Ok(())
    }
}
