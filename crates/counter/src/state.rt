// A counter: the client's side of a ring. Each inform that it keeps stands at its station's place.
ghost use Rattle.std.specs.Prelude.{◌≡◌, true};
ghost use Rattle.quorum.specs.Rings.{stations_of};
ghost use Rattle.counter.specs.Standing.{Core, placed_in};

use crate::parts::Asked;
use quorum::figures::Ring;
use std::marker::Model;

#[derive(Drop)]
pub struct Counter {
    pub(crate) ring: Ring,
    pub(crate) client: u16,
    // the sequence of the next opening; past the largest sequence there is none
    pub(crate) next: u64,
    pub(crate) current: Option<Asked>,
}

impl Model for Counter {
    ghost Value = { Core };

    ghost view = { λ c. record { stations = stations_of c.ring; client = c.client; next = c.next; current = c.current } };

    ghost invariant = { λ c. placed_in (stations_of c.ring) c.current ≡ true };
}
