// Where each sector stands. The divisors are sizes of a volume that the number lies in, so none of them is 0.
ghost use Rattle.std.specs.Prelude.{◌≡◌, ◌+◌, ◌*◌, ◌/◌, ◌%◌, ◌<◌};
ghost use Rattle.geometry.specs.Orders.{ordered};
ghost use Rattle.geometry.specs.Sectors.{numbered};
ghost use Rattle.geometry.specs.Answers.{found, placed, sector_at};

use crate::{Address, Geometry, Sector, VolumeNumber};

// Of what is said of cylinders and of heads, that which goes on slower, and that which goes on quicker; and of the slower and the quicker, what is said of
// cylinders and of heads.
fn ordered(by_head: bool, cylinders: u16, heads: u16) -> (u16, u16)
    ensures { result ≡ ordered by_head (cylinders, heads) }
{
    if by_head {
        (cylinders, heads)
    } else {
        (heads, cylinders)
    }
}

// Sectors counted on tracks of `sectors`: a slow number goes on once for `each` of a quick one.
fn count(slow: u16, each: u16, quick: u16, sectors: u16, sector: u16) -> u64
    ensures { result ≡ (slow * each + quick) * sectors + sector }
{
    (u64::from(slow) * u64::from(each) + u64::from(quick)) * u64::from(sectors) + u64::from(sector)
}

// The other way: of a number that counts so, the slow number, the quick one and the sector.
fn digits(number: u64, each: u16, sectors: u16) -> (u16, u16, u16)
    requires { number < 65536 * each * sectors }
    ensures { result ≡ (number / (sectors * each), number / sectors % each, number % sectors) }
{
    let each = u64::from(each);
    let sectors = u64::from(sectors);
    (
        (number / (sectors * each)) as u16,
        (number / sectors % each) as u16,
        (number % sectors) as u16,
    )
}

impl Geometry {
    // The address of a number in a volume, if the volume has that number.
    pub fn address(self, v: VolumeNumber, number: u64) -> Option<Address>
        ensures { result ≡ found self v number }
    {
        if self.volume_sectors(v) <= number {
            return None;
        }
        let (_, each) = ordered(self.by_head, self.cylinders, self.heads_of(v));
        let (slow, quick, sector) = digits(number, each, self.sectors_a_track);
        let (cylinder, head) = ordered(self.by_head, slow, quick);
        Some(Address {
            cylinder,
            head: self.start_of(v) + head,
            sector,
        })
    }

    // The number in a volume of a physical address, whose head is counted from the volume's start head, if the volume has the address.
    #[tactic(auto, using(crate::proofs::Steps::numbers))]
    pub fn number(self, v: VolumeNumber, cylinder: u16, head: u16, sector: u16) -> Option<u64>
        ensures { result ≡ numbered self v cylinder head sector }
    {
        let heads = self.heads_of(v);
        if self.cylinders <= cylinder || heads <= head || self.sectors_a_track <= sector {
            return None;
        }
        let (_, each) = ordered(self.by_head, self.cylinders, heads);
        let (slow, quick) = ordered(self.by_head, cylinder, head);
        Some(count(slow, each, quick, self.sectors_a_track, sector))
    }

    // The place in the image, counted in sectors, of an address, if it is on the drive.
    #[tactic(auto, using(crate::proofs::Steps::places))]
    pub fn place(self, a: Address) -> Option<u64>
        ensures { result ≡ placed self a }
    {
        let heads = self.heads();
        if self.cylinders <= a.cylinder || heads <= a.head || self.sectors_a_track <= a.sector {
            return None;
        }
        Some(count(a.cylinder, heads, a.head, self.sectors_a_track, a.sector))
    }

    // The sector at a place, if the drive has one there.
    #[tactic(auto, using(crate::proofs::Steps::sectors))]
    pub fn sector(self, place: u64) -> Option<Sector>
        ensures { result ≡ sector_at self place }
    {
        let all = self.drive_sectors();
        if all <= place {
            return None;
        }
        let bytes = u64::from(self.bytes_a_sector);
        Some(Sector {
            first: place * bytes,
            mark: all * bytes + place,
        })
    }
}
