// The shape of a drive: its limits and its default, its sizes, and where each sector stands in an image.
// Two steps are kept apart: a number in a volume to an address on the drive, and an address to a place in the image.
// It holds no image and no unit, and its fields are its own: crates above use its functions and cite its laws.
#![tactic(auto)]

ghost use Rattle.std.specs.Prelude.{◌≡◌, ◌<◌};
ghost use Rattle.geometry.specs.Default.{table11};
ghost use Rattle.geometry.specs.Drive.{B, C, N, S, goes_by_head, end, geometry_of, start, volume, volume_of, with_increment};
ghost use Rattle.geometry.specs.Limits.{Present};
ghost use Rattle.wire.specs.Promise.{Says};

mod limits;
mod sectors;
mod sizes;

// One of a unit's two volumes.
#[derive(Clone, Copy, PartialEq, Eq)]
pub enum VolumeNumber {
    Zero,
    One,
}

// A volume: the head that it starts at, counted over the whole drive, and how many heads it has. With none it is absent.
#[derive(Clone, Copy, PartialEq, Eq)]
pub struct Volume {
    start_head: u8,
    heads: u8,
}

// A geometry as it stands in a record or came out of a UIB: any numbers, inside the limits or not. Its tracks go by head, the next track having the next
// head, or by cylinder.
#[derive(Clone, Copy, PartialEq, Eq)]
pub struct Geometry {
    cylinders: u16,
    sectors_a_track: u16,
    bytes_a_sector: u16,
    volume0: Volume,
    volume1: Volume,
    by_head: bool,
}

// A sector of the drive. Its head is counted over the whole drive, since 8C and a spare track reach heads that no volume has.
#[derive(Clone, Copy, PartialEq, Eq)]
pub struct Address {
    pub cylinder: u16,
    pub head: u16,
    pub sector: u16,
}

// The sector at a place: its first byte in the image, and the byte that is its mark.
#[derive(Clone, Copy)]
pub struct Sector {
    pub first: u64,
    pub mark: u64,
}

impl Volume {
    pub fn new(start_head: u8, heads: u8) -> Volume
        ensures { result ≡ volume_of start_head heads }
    {
        Volume { start_head, heads }
    }

    pub fn start_head(self) -> u8
        ensures { result ≡ start self }
    {
        self.start_head
    }

    pub fn heads(self) -> u8
        ensures { result ≡ N self }
    {
        self.heads
    }

    #[tactic(auto, unfolding(crate::specs::Limits::Present))]
    pub fn is_present(self) -> bool
        ensures { Says result (Present self) }
    {
        0 < self.heads
    }

    // Whether the two hold the same numbers.
    pub fn same(self, other: Volume) -> bool
        ensures { Says result (self ≡ other) }
    {
        self == other
    }

    // Where its heads end. An absent volume's start head says nothing.
    #[tactic(auto, using(crate::proofs::Ends::end_absent, crate::proofs::Ends::end_present))]
    fn end(self) -> u16
        ensures { result ≡ end self }
    {
        if 0 < self.heads {
            u16::from(self.start_head) + u16::from(self.heads)
        } else {
            0
        }
    }
}

impl Geometry {
    pub const CYLINDERS_LEAST: u16 = 1;

    pub const CYLINDERS_MOST: u16 = 4096;

    pub const SECTORS_LEAST: u16 = 1;

    pub const SECTORS_MOST: u16 = 255;

    pub const BYTES_LEAST: u16 = 64;

    pub const BYTES_MOST: u16 = 4096;

    pub const HEADS_MOST: u16 = 64;

    // A geometry of any numbers, whose tracks go by head; `is_within` judges them.
    pub fn new(
        cylinders: u16,
        sectors: u16,
        bytes: u16,
        volume0: Volume,
        volume1: Volume,
    ) -> Geometry
        ensures { result ≡ geometry_of cylinders sectors bytes volume0 volume1 }
    {
        Geometry {
            cylinders,
            sectors_a_track: sectors,
            bytes_a_sector: bytes,
            volume0,
            volume1,
            by_head: true,
        }
    }

    // The same drive with the attribute for increment by head on or off.
    pub fn with_increment(self, by_head: bool) -> Geometry
        ensures { result ≡ with_increment by_head self }
    {
        Geometry { by_head, ..self }
    }

    // Table 11 of the manual. A caller may ask for it; no unit starts with it.
    pub fn default() -> Geometry
        ensures { result ≡ table11 }
    {
        Geometry::new(644, 64, 512, Volume::new(0, 10), Volume::new(0, 0))
    }

    pub fn cylinders(self) -> u16
        ensures { result ≡ C self }
    {
        self.cylinders
    }

    pub fn sectors_a_track(self) -> u16
        ensures { result ≡ S self }
    {
        self.sectors_a_track
    }

    pub fn bytes_a_sector(self) -> u16
        ensures { result ≡ B self }
    {
        self.bytes_a_sector
    }

    pub fn volume(self, v: VolumeNumber) -> Volume
        ensures { result ≡ volume self v }
    {
        match v {
            VolumeNumber::Zero => self.volume0,
            VolumeNumber::One => self.volume1,
        }
    }

    pub fn by_head(self) -> bool
        ensures { result ≡ goes_by_head self }
    {
        self.by_head
    }

    // Whether the two hold the same, inside the limits or not.
    pub fn same(self, other: Geometry) -> bool
        ensures { Says result (self ≡ other) }
    {
        self == other
    }

    // A volume's start head, and its heads, as the wider numbers that sums are made of.
    fn start_of(self, v: VolumeNumber) -> u16
        ensures { (result ≡ start (volume self v)) × (result < 256) }
    {
        u16::from(self.volume(v).start_head())
    }

    fn heads_of(self, v: VolumeNumber) -> u16
        ensures { (result ≡ N (volume self v)) × (result < 256) }
    {
        u16::from(self.volume(v).heads())
    }
}
