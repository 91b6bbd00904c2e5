// A ring: a number of stations from 1 to 10. Once made, nothing above tests that number again.
ghost use Rattle.std.specs.Prelude.{◌≡◌, ◌≤◌};

#[derive(Clone, Copy)]
pub struct Ring {
    stations: u8,
    ghost some: { 1 ≤ stations },
    ghost few: { stations ≤ 10 },
}

impl Ring {
    pub fn stations(self) -> u8
        ensures { result ≡ self.stations }
    {
        self.stations
    }
}

pub mod counts;
