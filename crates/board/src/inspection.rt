// The inspection call: the bytes of one sector, as a part of its unit's image.
ghost use Rattle.std.specs.Prelude.{◌≡◌, length};
ghost use Rattle.board.specs.Inspection.{bytes_of, lies_at, no_part, part_of, sector_part};

use crate::Units;
use geometry::Sector;
use unit::{Unit, UnitNumber};

// A part of a unit's image: so many bytes, from the byte `at` on.
#[derive(Clone, Copy)]
pub struct Part {
    pub unit: UnitNumber,
    pub at: usize,
    pub bytes: usize,
}

// What is handed back where there is nothing to inspect: no byte, at the start of unit 0's image.
fn no_part() -> Part
    ensures { result ≡ no_part }
{
    Part {
        unit: UnitNumber::Zero,
        at: 0,
        bytes: 0,
    }
}

// The sector at a place of one unit, whose image is so long.
fn sector_part(unit: UnitNumber, u: &Unit, long: usize, place: u64) -> Part
    ensures { result ≡ sector_part unit u.now long place }
{
    if !u.counts_as_initialized() {
        return no_part();
    }
    let g = u.geometry();
    if (long as u64) < g.need() {
        return no_part();
    }
    match g.sector(place) {
        Some(Sector { first, .. }) => {
            let bytes = g.bytes_a_sector() as usize;
            Part {
                unit,
                at: first as usize,
                bytes,
            }
        }
        None => no_part(),
    }
}

// Which part of which image an inspection hands back.
pub fn part_of(units: &Units, long0: usize, long1: usize, unit: u32, place: u64) -> Part
    ensures { result ≡ part_of units.now.zero units.now.one long0 long1 unit place }
{
    match unit {
        0 => sector_part(UnitNumber::Zero, &units.zero, long0, place),
        1 => sector_part(UnitNumber::One, &units.one, long1, place),
        _ => no_part(),
    }
}

// The part itself, lent for as long as the images are: its bytes, and where they lie, so that the other image's like bytes, or no bytes of another place, will not do.
pub fn inspect<'a>(
    image0: &'a [u8],
    image1: &'a [u8],
    units: &Units,
    unit: u32,
    place: u64,
) -> &'a [u8]
    ensures bytes { let part = part_of units.now.zero units.now.one
        (length image0.now) (length image1.now) unit place in
        result.now ≡ bytes_of image0.now image1.now part }
    ensures lies { let part = part_of units.now.zero units.now.one
        (length image0.now) (length image1.now) unit place in
        result.ref_ptr ≡ lies_at image0.entry.ref_ptr image1.entry.ref_ptr part }
{
    let part = part_of(units, image0.len(), image1.len(), unit, place);
    let at = part.at;
    let end = at + part.bytes;
    let unit = part.unit;
    match unit {
        UnitNumber::Zero => return &image0[at..end],
        UnitNumber::One => return &image1[at..end],
    }
}
