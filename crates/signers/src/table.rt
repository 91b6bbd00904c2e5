// A table of secrets by number: a row of places for stations, and one for clients.
ghost use Rattle.std.specs.Prelude.{◌≡◌, ℕ, ◌&&◌, is_ok, if◌then◌else◌, Some, ◌==◌};
ghost use Rattle.signers.specs.Tables.{secret_of, added, empty};

use crate::row::{Entry, Row};
use quorum::figures::counts::MOST_STATIONS;
use quorum::limits::{FIRST_CLIENT, MOST_CLIENTS};
use quorum::refusal::Fault;

// stations have the numbers below this one
const PAST_STATIONS: u16 = MOST_STATIONS as u16;

#[derive(Drop)]
pub struct Table<T> {
    stations: Row<T, MOST_STATIONS>,
    clients: Row<T, MOST_CLIENTS>,
}

impl<T: Copy> Table<T> {
    pub fn new() -> Table<T>
        ensures { result ≡ empty }
    {
        Table {
            stations: Row::new(),
            clients: Row::new(),
        }
    }

    pub fn secret(&self, number: u16) -> Option<T>
        ensures { result ≡ secret_of self.now number }
    {
        if number < PAST_STATIONS {
            self.stations.secret(number)
        } else if number < FIRST_CLIENT {
            None
        } else {
            self.clients.secret(number)
        }
    }

    pub fn add(&mut self, entry: Entry<T>) -> Result<(), Fault>
        ensures answer { (result, self.new) ≡ added self.old entry }
        ensures secrets { (m : ℕ) → secret_of self.new m ≡ (if is_ok result && entry.number == m then Some entry.secret else secret_of self.old m) }
    {
        if entry.number < PAST_STATIONS {
            self.stations.add(entry)
        } else if entry.number < FIRST_CLIENT {
            Err(Fault::WrongSender(0))
        } else {
            self.clients.add(entry)
        }
    }
}
