// A row of places for secrets by number, each place free or with one entry.
ghost use Rattle.std.specs.Prelude.{◌≡◌, ◌<◌, IfSome, length, ℕ, ◌&&◌, ◌==◌, List, Option, None, Some, replicate, is_ok, if◌then◌else◌};
ghost use Rattle.signers.specs.declared.row.Entry.{Entry};

use quorum::refusal::Fault;
use std::marker::Model;

#[derive(Clone, Copy)]
pub struct Entry<T> {
    pub number: u16,
    pub secret: T,
}

#[derive(Drop)]
pub struct Row<T, const N: usize> {
    places: [Option<Entry<T>>; N],
}

// Clauses see the places.
impl<T, const N: usize> Model for Row<T, N> {
    ghost Value = { List (Option (Entry T)) };

    ghost view = { λ row. row.places };
}

impl<T: Copy, const N: usize> Row<T, N> {
    ghost use Rattle.signers.specs.Rows.{found, full, first_free, put};

    pub fn new() -> Row<T, N>
        ensures { result ≡ replicate N None }
    {
        Row { places: [None; N] }
    }

    // the secret that the row holds for a number
    pub fn secret(&self, number: u16) -> Option<T>
        ensures { result ≡ found self.now number }
    {
        self.places
            .iter()
            .flatten()
            .find(|entry| entry.number == number)
            .map(|entry| entry.secret)
    }

    // the first free place
    fn free_place(&self) -> Option<usize>
        ensures answer { result ≡ (if full self.now then None else Some (first_free self.now)) }
        ensures within { IfSome result (λ i. i < length self.now) }
    {
        self.places.iter().position(|place| place.is_none())
    }

    // An entry goes to the first free place. It is refused where no place is free, then where its number has a secret.
    pub fn add(&mut self, entry: Entry<T>) -> Result<(), Fault>
        ensures answer { (result, self.new) ≡ put self.old entry }
        ensures secrets { (m : ℕ) → found self.new m ≡ (if is_ok result && entry.number == m then Some entry.secret else found self.old m) }
    {
        let Some(place) = self.free_place() else {
            return Err(Fault::OutOfRange(0));
        };
        if self.secret(entry.number).is_some() {
            return Err(Fault::Conflict(0));
        }
        self.places[place] = Some(entry);
        Ok(())
    }
}
