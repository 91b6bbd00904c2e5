// The figures of a ring.
ghost use Rattle.std.specs.Prelude.{◌≡◌};
ghost use Rattle.quorum.specs.Figures.{faults_of, quorum_of, primary_of};
ghost use Rattle.quorum.specs.Rings.{stations_of, seen, made_of};

use crate::figures::Ring;
use crate::refusal::Fault;

// the most stations that a ring can have
pub const MOST_STATIONS: usize = 10;

impl Ring {
    // A ring of so many stations, or the refusal of a number outside 1 to 10.
    pub fn new(stations: usize) -> Result<Ring, Fault>
        ensures { seen result ≡ made_of stations }
    {
        if stations < 1 || stations > MOST_STATIONS {
            return Err(Fault::WrongSender(0));
        }
        Ok(Ring {
            stations: stations as u8,
        })
    }

    // f: how many stations may be faulty
    pub fn faults(self) -> u8
        ensures { result ≡ faults_of (stations_of self) }
    {
        (self.stations - 1) / 3
    }

    // q: how many stations make a quorum
    pub fn quorum(self) -> u8
        ensures { result ≡ quorum_of (stations_of self) }
    {
        self.stations - self.faults()
    }

    // the station that leads a view
    pub fn primary(self, view: u32) -> u8
        ensures { result ≡ primary_of (stations_of self) view }
    {
        (view % self.stations as u32) as u8
    }
}
