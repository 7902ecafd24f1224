// The drives themselves: their sizes, and where their sectors stand.
use geometry::{Geometry, Sector, Volume, VolumeNumber};
use std::io;
use unit::{Record, Unit};

// The small drive: 10 cylinders of 4 sectors of 64 bytes, heads 0 and 1 in volume 0, head 2 in volume 1.
fn small() -> Geometry {
    Geometry::new(10, 4, 64, Volume::new(0, 2), Volume::new(2, 1))
}

// A small drive, initialized or not.
pub(crate) fn unit(initialized: bool) -> Unit {
    Unit {
        value: Record::new(initialized, small(), 0, 0),
        tracks: [0; 64],
    }
}

fn byte(rt: &impl Print, place: u64) -> io::Result<()> {
    match small().sector(place) {
        Some(Sector { first, mark }) => println!(rt; "  byte {first}\n  mark {mark}"),
        None => println!(rt; "  outside"),
    }
}

fn landing(rt: &impl Print, name: &str, volume: VolumeNumber, number: u64) -> io::Result<()> {
    match unit(true).land(volume, number) {
        Some(spot) => {
            println!(rt; "{name} logical {number} place {}", spot.place)?;
            byte(rt, spot.place)
        }
        None => println!(rt; "{name} logical {number} place outside"),
    }
}

fn sizes(rt: &impl Print, g: Geometry) -> io::Result<()> {
    println!(rt; "heads {}", g.heads())?;
    println!(rt; "sectors {}", g.drive_sectors())?;
    println!(rt; "marks at {}", g.marks_at())?;
    println!(rt; "image needs {}", g.need())
}

pub(crate) fn small_drive(rt: &impl Print) -> io::Result<()> {
    println!(rt; "small drive")?;
    sizes(rt, small())?;
    for number in [0, 7, 8, 79, 80] {
        landing(rt, "volume 0", VolumeNumber::Zero, number)?;
    }
    landing(rt, "volume 1", VolumeNumber::One, 0)
}

pub(crate) fn table_11(rt: &impl Print) -> io::Result<()> {
    println!(rt; "default")?;
    sizes(rt, Geometry::default())
}
