// Where a sector of a unit stands in its image, and how long that image has to be, by the bytes of a record alone.
// What counts as initialized and where a sector lands is unit's, what a place is in bytes geometry's: here a record is read and they are asked.
// No image and no other unit is looked at. No byte of the record is stored, and a number of the caller's only where there is one to tell.
ghost use Rattle.std.specs.Prelude.{◌≡◌, ◌≤◌, ◌<◌, length};
ghost use Rattle.geometry.specs.Drive.{drive_sectors};
ghost use Rattle.unit.specs.declared.Spot.{Spot};
ghost use Rattle.abi.specs.Places.{addressed_by, located_of, locating, needed_of, needing, numbered_in, standing};
ghost use Rattle.abi.specs.Readings.{lands_as, reading, with_unit};
ghost use Rattle.abi.specs.Unread.{nothing_read};
ghost use Rattle.unit.specs.Standing.{table};
ghost use Rattle.wire.specs.Promise.{Says};

use crate::{CallRefusal, RECORD_LEN, layouts};
use geometry::{Address, Geometry, VolumeNumber};
use unit::{Spot, Unit};

// A sector as it is asked for.
#[derive(Clone, Copy)]
pub(crate) enum Wanted {
    Numbered { volume: u32, number: u64 },
    Addressed(Address),
}

// Whether some bytes are as many as a record has.
fn holds_record(record: &[u8]) -> bool
    ensures { Says result (276 ≤ length «record».now) }
{
    RECORD_LEN <= record.len()
}

// Reads a record that is long enough, with its tracks that count, into a unit of which nothing was read: one that counts as initialized, or why there is none.
fn read(record: &[u8], u: &mut Unit) -> Result<(), CallRefusal>
    requires { (276 ≤ length «record».now) × (table u.old ≡ nothing_read) }
    ensures { with_unit result u.new ≡ reading «record».now }
{
    layouts::unit_in(record, u);
    if u.counts_as_initialized() {
        Ok(())
    } else {
        Err(CallRefusal::NotInitialized)
    }
}

// Where the sector with a number in the volume with a number lands.
fn numbered_in(u: &Unit, volume: u32, number: u64) -> Option<Spot>
    ensures { result ≡ numbered_in volume number u.now }
{
    match volume {
        0 => u.land(VolumeNumber::Zero, number),
        1 => u.land(VolumeNumber::One, number),
        _ => None,
    }
}

// Where the sector that is asked for lands.
fn lands(u: &Unit, wanted: Wanted) -> Option<Spot>
    ensures { result ≡ lands_as wanted u.now }
{
    match wanted {
        Wanted::Numbered { volume, number } => numbered_in(u, volume, number),
        Wanted::Addressed(a) => u.land_at(a),
    }
}

// Tells where a landing stands. One that is at a place is on the drive.
fn stand(
    g: Geometry,
    landing: Option<Spot>,
    place: &mut u64,
    first: &mut u64,
    mark: &mut u64,
) -> u32
    requires { (s : Spot) → landing ≡ Some s → s.place < drive_sectors g }
    ensures { located_of result place.new first.new mark.new ≡
        standing g landing (located_of 0 place.old first.old mark.old) }
{
    let Some(spot) = landing else {
        return CallRefusal::SectorOutside.code();
    };
    let Some(sector) = g.sector(spot.place) else {
        unreachable!();
    };
    *place = spot.place;
    *first = sector.first;
    *mark = sector.mark;
    0
}

// Either call for a sector.
fn locate(record: &[u8], wanted: Wanted, place: &mut u64, first: &mut u64, mark: &mut u64) -> u32
    ensures { located_of result place.new first.new mark.new ≡
        locating (lands_as wanted) «record».now
        (located_of 0 place.old first.old mark.old) }
{
    if !holds_record(record) {
        return CallRefusal::Record0Short.code();
    }
    let mut u = layouts::unread();
    match read(record, &mut u) {
        Ok(()) => stand(u.geometry(), lands(&u, wanted), place, first, mark),
        Err(refusal) => refusal.code(),
    }
}

// Where the sector with a number in a volume stands: its place in the image, its first byte there, and its mark. Answers 0, or the code for
// why nothing is told.
#[unsafe(no_mangle)]
pub extern "C" fn vsmd_sector_of(
    record: &[u8],
    volume: u32,
    number: u64,
    place: &mut u64,
    first: &mut u64,
    mark: &mut u64,
) -> u32
    ensures { located_of result place.new first.new mark.new ≡
        locating (numbered_in volume number) «record».now
        (located_of 0 place.old first.old mark.old) }
{
    locate(
        record,
        Wanted::Numbered { volume, number },
        place,
        first,
        mark,
    )
}

// The same of the sector at an address, its head counted over the whole drive.
#[unsafe(no_mangle)]
pub extern "C" fn vsmd_sector_at(
    record: &[u8],
    cylinder: u16,
    head: u16,
    sector: u16,
    place: &mut u64,
    first: &mut u64,
    mark: &mut u64,
) -> u32
    ensures { located_of result place.new first.new mark.new ≡
        locating (addressed_by cylinder head sector) «record».now
        (located_of 0 place.old first.old mark.old) }
{
    let a = Address {
        cylinder,
        head,
        sector,
    };
    locate(record, Wanted::Addressed(a), place, first, mark)
}

// How many bytes the image of the record's unit needs. Answers as the calls for a sector do.
#[unsafe(no_mangle)]
pub extern "C" fn vsmd_image_need(record: &[u8], bytes: &mut u64) -> u32
    ensures { needed_of result bytes.new ≡ needing «record».now bytes.old }
{
    if !holds_record(record) {
        return CallRefusal::Record0Short.code();
    }
    let mut u = layouts::unread();
    match read(record, &mut u) {
        Ok(()) => {
            *bytes = u.geometry().need();
            0
        }
        Err(why) => why.code(),
    }
}
