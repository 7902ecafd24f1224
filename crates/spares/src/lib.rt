// The table of a unit's bad tracks and their spares: judged, searched, and added to.
// It knows the shape of a drive, and no record: how many pairs of a table count is told beside it, and the table is lent.
// It moves neither data nor heads, and changes a table by a pair at its end alone.
#![tactic(auto)]

ghost use Rattle.std.specs.Prelude.{◌≡◌, ℕ, ◌*◌, ◌≤◌, ◌<◌, min, get_or};
ghost use Rattle.spares.specs.Lands.{Serves, served, InTable};
ghost use Rattle.spares.specs.Table.{Free, Good, OneOf, one_pair_more, served_at, with_pair};
ghost use Rattle.spares.specs.Tracks.{TrackOn, track_number, stands_for};
ghost use Rattle.wire.specs.Promise.{Says};

use geometry::Geometry;

// A track of the whole drive.
#[derive(Clone, Copy)]
pub struct Track {
    pub cylinder: u16,
    pub head: u16,
}

// The number of a track as a table has it. A head of 8 bits is as wide as a block's.
pub fn number(cylinder: u16, head: u8) -> u32
    ensures { result ≡ track_number cylinder head }
{
    u32::from(cylinder) * 65536 + u32::from(head) * 256
}

// The track that a number stands for.
pub fn stands_for(t: u32) -> Track
    ensures { result ≡ stands_for t }
{
    Track {
        cylinder: (t / 65536) as u16,
        head: (t / 256 % 256) as u16,
    }
}

// Whether the drive has the track with a number.
pub fn is_on_drive(g: Geometry, t: u32) -> bool
    ensures { Says result (TrackOn g t) }
{
    let k = stands_for(t);
    k.cylinder < g.cylinders() && k.head < g.heads() && t % 256 == 0
}

// Whether a track is one of the first m of a table.
fn is_one_of(table: &[u32; 64], m: usize, t: u32) -> bool
    requires { m ≤ 64 }
    ensures { Says result (OneOf m table.now t) }
{
    for i in 0..m {
        if table[i] == t {
            return true;
        }
    }
    false
}

// Whether no two of the first m tracks of a table are the same.
fn none_is_twice(table: &[u32; 64], m: usize) -> bool
    requires { m ≤ 64 }
    ensures { Says result ((i j : ℕ) → i < j → j < m → get_or table.now i 0 ≡ get_or table.now j 0 → ⊥) }
{
    (0..m).all(|j| !is_one_of(table, j, table[j]))
}

// Whether the drive has each of the first m tracks of a table.
fn all_are_on_drive(table: &[u32; 64], m: usize, g: Geometry) -> bool
    requires { m ≤ 64 }
    ensures { Says result ((i : ℕ) → i < m → TrackOn g (get_or table.now i 0)) }
{
    (0..m).all(|i| is_on_drive(g, table[i]))
}

// Whether a table of so many pairs is good.
pub fn is_good(table: &[u32; 64], pairs: u16, g: Geometry) -> bool
    ensures { Says result (Good g pairs table.now) }
{
    let m = 2 * usize::from(pairs);
    pairs <= 32 && all_are_on_drive(table, m, g) && none_is_twice(table, m)
}

// So many pairs, but no more than there is room for.
pub fn in_room(pairs: u16) -> usize
    ensures { result ≡ min pairs 32 }
{
    usize::from(pairs).min(32)
}

// Whether a track is in a table, as bad or as spare.
pub fn is_in(table: &[u32; 64], pairs: u16, t: u32) -> bool
    ensures { Says result (InTable pairs table.now t) }
{
    is_one_of(table, 2 * in_room(pairs), t)
}

// Whether two tracks can become a pair: they are not one, and neither is in the table.
pub fn are_free(table: &[u32; 64], pairs: u16, bad: u32, spare: u32) -> bool
    ensures { Says result (Free pairs table.now bad spare) }
{
    bad != spare && !is_in(table, pairs, bad) && !is_in(table, pairs, spare)
}

// Whether pair i of a table serves a track.
fn serves(table: &[u32; 64], i: usize, g: Geometry, t: u32) -> bool
    requires { i < 32 }
    ensures { Says result (Serves g table.now i t) }
{
    table[2 * i] == t && is_on_drive(g, table[2 * i + 1])
}

// The spare that serves the track with a number, where one does.
fn server(table: &[u32; 64], pairs: u16, g: Geometry, t: u32) -> Option<Track>
    ensures { result ≡ served g pairs table.now t }
{
    for i in 0..in_room(pairs) {
        if serves(table, i, g, t) {
            return Some(stands_for(table[2 * i + 1]));
        }
    }
    None
}

// The spare that serves a track, where it does not serve itself. A head that no number has is in no table.
pub fn serving(
    table: &[u32; 64],
    pairs: u16,
    g: Geometry,
    cylinder: u16,
    head: u16,
) -> Option<Track>
    ensures { result ≡ served_at g pairs table.now cylinder head }
{
    if let Ok(head) = u8::try_from(head) {
        return server(table, pairs, g, number(cylinder, head));
    }
    None
}

// How many pairs there are with one more. Where there is no room for it they stay as many.
pub fn one_more(pairs: u16) -> u16
    ensures { result ≡ one_pair_more pairs }
{
    if 32 <= pairs { pairs } else { pairs + 1 }
}

// A pair more, after so many. A table without room is left as it is.
pub fn add(table: &mut [u32; 64], pairs: u16, bad: u32, spare: u32)
    ensures { table.new ≡ with_pair pairs table.old bad spare }
{
    if pairs < 32 {
        let at = 2 * usize::from(pairs);
        table[at] = bad;
        table[at + 1] = spare;
    }
}
