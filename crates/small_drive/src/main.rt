// Prints what neither a session nor the library can show: the small drive of the paper and the default of Table 11 as the geometry
// counts them, and the part of an image that an inspection lends. What it prints is held to the file stdout beside it, whose numbers
// follow from the paper and the manual. It proves nothing about the drive itself: the crates below are proved, and this shows them
// at work.
#![tactic(auto)]

mod drives;
mod inspection;

use std::io;

fn main(rt: HostRuntime) -> io::Result<()> {
    drives::small_drive(&rt)?;
    drives::table_11(&rt)?;
    inspection::inspection(&rt)
}
