// The unit record: when it counts as initialized, who holds its drive, and where a request lands on it.
// It is the one door to where a sector stands: a spare serves for a bad track behind it, and the order of tracks is the geometry's.
// It moves no data and sees no image; a record goes in and comes back by value, and a unit, its record and its table, is lent and left as it is.
#![tactic(auto)]

ghost use Rattle.std.specs.Prelude.{◌≡◌, ◌<◌};
ghost use Rattle.geometry.specs.Drive.{C};
ghost use Rattle.geometry.specs.Sectors.{OnDrive, numbered};
ghost use Rattle.spares.specs.Table.{Good};
ghost use Rattle.unit.specs.Holding.{as_holder, held_by_other, reserved_by};
ghost use Rattle.unit.specs.Landing.{spot_at};
ghost use Rattle.unit.specs.Standing.{CountsAsInitialized, cylinder, geometry, value_of, holder, initialized, pairs, table};
ghost use Rattle.wire.specs.Promise.{Says};
ghost use Rattle.unit.specs.Answers.{landing, landing_at, spotted, track_landing};
ghost use Rattle.unit.specs.Made.{bare, blank, nothing_said, freshly, heads_on, more_held, with_holder};
ghost use Rattle.unit.specs.HolderNumbers.{holder_number, holder_of};

use geometry::{Address, Geometry, Volume, VolumeNumber};

mod numbers;

// One of the board's two units.
#[derive(Clone, Copy, PartialEq, Eq)]
pub enum UnitNumber {
    Zero,
    One,
}

// One of the two controllers that can share a drive.
#[derive(Clone, Copy, PartialEq, Eq)]
pub enum Controller {
    First,
    Second,
}

impl Controller {
    // The controller as the holder of a drive.
    pub fn as_holder(self) -> Option<Controller>
        ensures { result ≡ as_holder self }
    {
        Some(self)
    }

    // Who holds a drive once a block of this controller has succeeded, with the reserve option or without.
    pub fn reserves(self, reserve: bool) -> Option<Controller>
        ensures { result ≡ reserved_by self reserve }
    {
        if reserve { self.as_holder() } else { None }
    }

    // Whether the other controller holds a drive with this holder.
    pub fn is_kept_out(self, holder: Option<Controller>) -> bool
        ensures { result ≡ held_by_other self holder }
    {
        match holder {
            None => false,
            Some(c) => c != self,
        }
    }
}

// The number of who holds a drive: 0 for nobody, 1 for the first controller, 2 for the second.
pub fn holder_number(holder: Option<Controller>) -> u8
    ensures { result ≡ holder_number holder }
{
    match holder {
        None => 0,
        Some(Controller::First) => 1,
        Some(Controller::Second) => 2,
    }
}

// The holder with a number, and nobody for a number that is no controller's.
pub fn holder_of(number: u16) -> Option<Controller>
    ensures { result ≡ holder_of number }
{
    if number == 1 {
        Some(Controller::First)
    } else if number == 2 {
        Some(Controller::Second)
    } else {
        None
    }
}

// A unit's record but for its table, of any contents: what it says of itself is judged by `counts_as_initialized`.
#[derive(Clone, Copy, PartialEq, Eq)]
pub struct Record {
    initialized: bool,
    geometry: Geometry,
    cylinder: u16,
    pairs: u16,
    holder: Option<Controller>,
}

// A unit: its record, and its table of bad tracks, of which so many pairs count as the record says. It is lent where it is used: a table is long.
#[derive(Clone, Copy)]
pub struct Unit {
    pub value: Record,
    pub tracks: [u32; 64],
}

// Where a sector stands: its cylinder, its place in the image, and how many sectors there are from it to the end of its
// track, itself counted, which follow one another in the image.
#[derive(Clone, Copy, PartialEq, Eq)]
pub struct Spot {
    pub cylinder: u16,
    pub place: u64,
    pub rest: u16,
}

// Consecutive sectors of a volume, from a number on.
#[derive(Clone, Copy, PartialEq, Eq)]
pub struct Span {
    pub volume: VolumeNumber,
    pub first: u64,
    pub count: u16,
}

impl Record {
    pub fn new(initialized: bool, geometry: Geometry, cylinder: u16, pairs: u16) -> Record
        ensures { result ≡ value_of initialized geometry cylinder pairs None }
    {
        Record {
            initialized,
            geometry,
            cylinder,
            pairs,
            holder: None,
        }
    }

    // A unit that has just been initialized.
    pub fn fresh(g: Geometry) -> Record
        ensures { result ≡ freshly g }
    {
        Record {
            initialized: true,
            geometry: g,
            cylinder: 0,
            pairs: 0,
            holder: None,
        }
    }

    // A unit of which nothing is said.
    pub fn blank() -> Record
        ensures { result ≡ nothing_said }
    {
        let none = Volume::new(0, 0);
        Record {
            initialized: false,
            geometry: Geometry::new(0, 0, 0, none, none),
            cylinder: 0,
            pairs: 0,
            holder: None,
        }
    }

    // What the record says of itself.
    pub fn initialized(self) -> bool
        ensures { result ≡ initialized (bare self) }
    {
        self.initialized
    }

    pub fn geometry(self) -> Geometry
        ensures { result ≡ geometry (bare self) }
    {
        self.geometry
    }

    // The cylinder that the heads stand on.
    pub fn cylinder(self) -> u16
        ensures { result ≡ cylinder (bare self) }
    {
        self.cylinder
    }

    // How many pairs of its table count.
    pub fn pairs(self) -> u16
        ensures { result ≡ pairs (bare self) }
    {
        self.pairs
    }

    // Who holds the drive.
    pub fn holder(self) -> Option<Controller>
        ensures { result ≡ holder (bare self) }
    {
        self.holder
    }

    // The record once the drive has that holder.
    pub fn held_by(self, to: Option<Controller>) -> Record
        ensures { result ≡ with_holder self to }
    {
        Record { holder: to, ..self }
    }

    // The record once its heads stand on another cylinder.
    pub fn moved_to(self, to: u16) -> Record
        ensures { result ≡ heads_on self to }
    {
        Record {
            cylinder: to,
            ..self
        }
    }

    // The record once a pair more is in its table.
    pub fn one_pair_more(self) -> Record
        ensures { result ≡ more_held self }
    {
        Record {
            pairs: spares::one_more(self.pairs),
            ..self
        }
    }

    // Whether the two hold the same.
    pub fn same(self, other: Record) -> bool
        ensures { Says result (self ≡ other) }
    {
        self == other
    }

    // Whether the heads stand on a cylinder that the drive has.
    fn heads_are_on_the_drive(self) -> bool
        ensures { Says result (cylinder (bare self) < C (geometry (bare self))) }
    {
        self.cylinder < self.geometry.cylinders()
    }

    // The number in a volume of a physical address, whose head is counted from the volume's start head.
    pub fn number(self, v: VolumeNumber, cylinder: u16, head: u16, sector: u16) -> Option<u64>
        ensures { result ≡ numbered (geometry (bare self)) v cylinder head sector }
    {
        self.geometry.number(v, cylinder, head, sector)
    }

    // The spot of an address itself.
    fn spot(self, a: Address) -> Option<Spot>
        ensures { result ≡ spotted (geometry (bare self)) a }
    {
        let place = self.geometry.place(a)?;
        Some(Spot {
            cylinder: a.cylinder,
            place,
            rest: self.geometry.sectors_a_track() - a.sector,
        })
    }
}

impl Unit {
    // A unit of which nothing is said.
    pub fn blank() -> Unit
        ensures { result ≡ blank }
    {
        Unit {
            value: Record::blank(),
            tracks: [0; 64],
        }
    }

    // What the record says: the geometry, the cylinder that the heads stand on, how many pairs of the table count, and who holds the drive.
    pub fn geometry(&self) -> Geometry
        ensures { result ≡ geometry self.now }
    {
        self.value.geometry()
    }

    pub fn cylinder(&self) -> u16
        ensures { result ≡ cylinder self.now }
    {
        self.value.cylinder()
    }

    pub fn pairs(&self) -> u16
        ensures { result ≡ pairs self.now }
    {
        self.value.pairs()
    }

    pub fn holder(&self) -> Option<Controller>
        ensures { result ≡ holder self.now }
    {
        self.value.holder()
    }

    // Whether it counts as initialized.
    pub fn counts_as_initialized(&self) -> bool
        ensures { Says result (CountsAsInitialized self.now) }
    {
        self.value.initialized
            && self.value.geometry.is_within()
            && self.value.heads_are_on_the_drive()
            && self.table_is_good()
    }

    // Whether its table is good, which is the long part of the question.
    fn table_is_good(&self) -> bool
        ensures { Says result (Good (geometry self.now) (pairs self.now) (table self.now)) }
    {
        spares::is_good(&self.tracks, self.value.pairs, self.value.geometry)
    }

    // Where the sector with a number in a volume lands.
    pub fn land(&self, v: VolumeNumber, number: u64) -> Option<Spot>
        ensures { result ≡ landing self.now v number }
    {
        let a = self.value.geometry.address(v, number)?;
        self.land_at(a)
    }

    // Where the first sector of a track lands, its head counted over the whole drive.
    pub fn land_track(&self, cylinder: u16, head: u16) -> Option<Spot>
        ensures { result ≡ track_landing self.now cylinder head }
    {
        self.land_at(Address {
            cylinder,
            head,
            sector: 0,
        })
    }

    // Where an address lands, if the drive has the address named.
    pub fn land_at(&self, a: Address) -> Option<Spot>
        ensures { result ≡ landing_at self.now a }
    {
        let own = self.value.spot(a)?;
        self.serve(a, own)
    }

    // Where an address of the drive lands, whose own spot is known: there, or on the spare of its track.
    fn serve(&self, a: Address, own: Spot) -> Option<Spot>
        requires { OnDrive (geometry self.now) a × (own ≡ spot_at (geometry self.now) a) }
        ensures { result ≡ landing_at self.now a }
    {
        match spares::serving(
            &self.tracks,
            self.value.pairs,
            self.value.geometry,
            a.cylinder,
            a.head,
        ) {
            None => Some(own),
            Some(k) => self.value.spot(Address {
                cylinder: k.cylinder,
                head: k.head,
                sector: a.sector,
            }),
        }
    }
}
