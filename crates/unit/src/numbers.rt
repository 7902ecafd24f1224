// A record as numbers, and back, for whoever has to hand one on without its type. Along a chain the units themselves are lent.
ghost use Rattle.std.specs.Prelude.{◌≡◌, ◌%◌};
ghost use Rattle.unit.specs.RecordNumbers.{as_numbers, in_numbers};

use crate::{Record, holder_number, holder_of};
use geometry::{Geometry, Volume, VolumeNumber};

fn low_byte(n: u16) -> u8
    ensures { result ≡ n % 256 }
{
    (n % 256) as u8
}

impl Record {
    // How many numbers a record has. Whoever lends one says its length by this name.
    pub const NUMBERS: usize = 12;

    // The numbers of the record, but for its table. It comes back from them.
    pub fn numbers(self) -> [u16; Record::NUMBERS]
        ensures { (result ≡ as_numbers self) × (in_numbers result ≡ self) }
    {
        let g = self.geometry;
        let zero = g.volume(VolumeNumber::Zero);
        let one = g.volume(VolumeNumber::One);
        [
            u16::from(self.initialized),
            g.cylinders(),
            g.sectors_a_track(),
            g.bytes_a_sector(),
            u16::from(zero.start_head()),
            u16::from(zero.heads()),
            u16::from(one.start_head()),
            u16::from(one.heads()),
            self.cylinder,
            self.pairs,
            u16::from(holder_number(self.holder)),
            u16::from(g.by_head()),
        ]
    }

    // The record of some numbers.
    #[tactic(auto, unfolding(crate::specs::RecordNumbers::in_numbers))]
    pub fn of_numbers(n: &[u16; Record::NUMBERS]) -> Record
        ensures { result ≡ in_numbers n.now }
    {
        let zero = Volume::new(low_byte(n[4]), low_byte(n[5]));
        let one = Volume::new(low_byte(n[6]), low_byte(n[7]));
        let geometry = Geometry::new(n[1], n[2], n[3], zero, one).with_increment(n[11] == 1);
        let holder = holder_of(n[10]);
        Record {
            initialized: n[0] == 1,
            geometry,
            cylinder: n[8],
            pairs: n[9],
            holder,
        }
    }
}
