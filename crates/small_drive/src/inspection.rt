// The inspection of one sector.
use crate::drives;
use board::Units;
use std::io;

// Both units are small drives, the second one initialized or not.
fn units(one: bool) -> Units {
    Units {
        zero: drives::unit(true),
        one: drives::unit(one),
    }
}

// How many bytes are lent, and those at the two ends. Which part of which image they are an inspection through the library tells too.
fn lends(rt: &impl Print, name: &str, lent: &[u8]) -> io::Result<()> {
    println!(rt; "{name} lends {}", lent.len())?;
    if let [first, .., last] = lent {
        println!(rt; "  first byte {first}\n  last byte {last}")?;
    }
    Ok(())
}

// Sector 12 is the bytes 768 to 831. Its ends differ from the bytes around them and from the other image's, so that the ends of what is
// lent tell which part of which image it is.
fn inspected(rt: &impl Print) -> io::Result<()> {
    let mut image0 = [5; 7800];
    image0[768] = 1;
    image0[831] = 2;
    let mut image1 = [5; 7800];
    image1[768] = 3;
    image1[831] = 4;
    for (name, one, unit, place) in [
        ("unit 0 place 12", true, 0, 12),
        ("unit 1 place 12", true, 1, 12),
        ("unit 0 place 120", true, 0, 120),
        ("unit 2 place 12", true, 2, 12),
        ("unit 1 not initialized, place 12", false, 1, 12),
    ] {
        let lent = board::inspect(&image0, &image1, &units(one), unit, place);
        lends(rt, name, lent)?;
    }
    let short = &image0[..7799];
    let lent = board::inspect(short, &image1, &units(true), 0, 12);
    lends(rt, "unit 0 with 7799 bytes, place 12", lent)
}

pub(crate) fn inspection(rt: &impl Print) -> io::Result<()> {
    println!(rt; "inspection")?;
    println!(rt; "paper: The sector is handed back as that part of the right unit's image.")?;
    println!(rt;
        "paper: Unit over 1, not initialized, place too large or image too short as in 17 give a part of length 0 at the start of unit 0's image."
    )?;
    println!(rt;
        "both units are small drives; bytes 768 and 831 are 1 and 2 in image 0, 3 and 4 in image 1, and 5 elsewhere"
    )?;
    inspected(rt)
}
