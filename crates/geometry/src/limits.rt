// Whether a geometry is inside its limits: the one test of them.
ghost use Rattle.std.specs.Prelude.{◌⊎◌, ◌≤◌};
ghost use Rattle.geometry.specs.declared.VolumeNumber.TheVariants.{Zero, One};
ghost use Rattle.geometry.specs.Drive.{B, C, S, end, start, volume};
ghost use Rattle.geometry.specs.Limits.{SizesWithin, VolumesWithin, Within};
ghost use Rattle.wire.specs.Promise.{Says};

use crate::Geometry;

fn lies_between(n: u16, least: u16, most: u16) -> bool
    ensures { Says result ((least ≤ n) × (n ≤ most)) }
{
    (least..=most).contains(&n)
}

impl Geometry {
    // Every number that a record or a UIB can hold gets its answer.
    pub fn is_within(self) -> bool
        ensures { Says result (Within self) }
    {
        self.sizes_are_within() && self.volumes_are_within()
    }

    fn sizes_are_within(self) -> bool
        ensures { Says result (SizesWithin self) }
    {
        self.cylinders_are_within()
            && self.sectors_are_within()
            && self.bytes_are_within()
            && self.bytes_a_sector % 2 == 0
    }

    fn cylinders_are_within(self) -> bool
        ensures { Says result ((1 ≤ C self) × (C self ≤ 4096)) }
    {
        lies_between(
            self.cylinders,
            Geometry::CYLINDERS_LEAST,
            Geometry::CYLINDERS_MOST,
        )
    }

    fn sectors_are_within(self) -> bool
        ensures { Says result ((1 ≤ S self) × (S self ≤ 255)) }
    {
        lies_between(
            self.sectors_a_track,
            Geometry::SECTORS_LEAST,
            Geometry::SECTORS_MOST,
        )
    }

    fn bytes_are_within(self) -> bool
        ensures { Says result ((64 ≤ B self) × (B self ≤ 4096)) }
    {
        lies_between(
            self.bytes_a_sector,
            Geometry::BYTES_LEAST,
            Geometry::BYTES_MOST,
        )
    }

    #[tactic(auto, using(crate::proofs::Ends::within_of_parts, crate::proofs::Ends::parts_of_within))]
    fn volumes_are_within(self) -> bool
        ensures { Says result (VolumesWithin self) }
    {
        self.volume0.is_present() && self.ends_are_within() && self.volumes_are_apart()
    }

    // An absent volume ends at 0, which passes the limit.
    fn ends_are_within(self) -> bool
        ensures { Says result ((end (volume self Zero) ≤ 64) × (end (volume self One) ≤ 64)) }
    {
        self.volume0.end() <= Geometry::HEADS_MOST && self.volume1.end() <= Geometry::HEADS_MOST
    }

    // Two volumes share no head where one ends before the other starts. An end of 0, an absent volume's, is before any start.
    fn volumes_are_apart(self) -> bool
        ensures { Says result ((end (volume self One) ≤ start (volume self Zero)) ⊎ (end (volume self Zero) ≤ start (volume self One))) }
    {
        self.volume1.end() <= u16::from(self.volume0.start_head)
            || self.volume0.end() <= u16::from(self.volume1.start_head)
    }
}
