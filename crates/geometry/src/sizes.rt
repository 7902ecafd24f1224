// The sizes of a drive, in 64 bits: no geometry at all, inside the limits or not, has a product that wraps.
ghost use Rattle.std.specs.Prelude.{◌≡◌, ◌*◌, ◌<◌, ◌^◌};
ghost use Rattle.geometry.specs.Drive.{drive_heads, drive_sectors, marks_at, need, volume_sectors};

use crate::{Geometry, VolumeNumber};

// The product of three numbers of 16 bits has 48.
fn product(a: u16, b: u16, c: u16) -> u64
    ensures { (result ≡ a * b * c) × (result < 2 ^ 48) }
{
    u64::from(a) * u64::from(b) * u64::from(c)
}

impl Geometry {
    // The heads of the whole drive, the paper's H.
    #[tactic(auto, using(crate::specs::Drive::Inside::drive_heads_is))]
    pub fn heads(self) -> u16
        ensures { result ≡ drive_heads self }
    {
        self.volume0.end().max(self.volume1.end())
    }

    // How many sectors a volume has.
    #[tactic(auto, using(crate::specs::Drive::Inside::volume_sectors_is))]
    pub fn volume_sectors(self, v: VolumeNumber) -> u64
        ensures { result ≡ volume_sectors self v }
    {
        product(self.cylinders, self.heads_of(v), self.sectors_a_track)
    }

    // How many sectors the whole drive has: few enough that their bytes can be counted in 64 bits.
    #[tactic(auto, using(crate::specs::Drive::Inside::drive_sectors_is))]
    pub fn drive_sectors(self) -> u64
        ensures { (result ≡ drive_sectors self) × (result < 2 ^ 48) }
    {
        product(self.cylinders, self.heads(), self.sectors_a_track)
    }

    // Where in an image the marks begin.
    #[tactic(auto, using(crate::specs::Drive::Inside::marks_at_is))]
    pub fn marks_at(self) -> u64
        ensures { result ≡ marks_at self }
    {
        self.drive_sectors() * u64::from(self.bytes_a_sector)
    }

    // How many bytes an image needs: a sector's bytes and its mark, for each sector.
    #[tactic(auto, using(crate::specs::Drive::Inside::marks_at_is, crate::specs::Drive::Inside::need_is))]
    pub fn need(self) -> u64
        ensures { result ≡ need self }
    {
        self.drive_sectors() * (u64::from(self.bytes_a_sector) + 1)
    }
}
