// The layouts of specs/Layouts: a record read and stored, an outcome stored.
ghost use Rattle.std.specs.Prelude.{cond, [], ◌∷◌, ◌≡◌, ℕ, ◌+◌, ◌*◌, ◌≤◌, ◌<◌, min, get_or, length, take};
ghost use Rattle.abi.specs.Calls.{record_left};
ghost use Rattle.abi.specs.Layouts.{geometry_bytes, geometry_in, holder_in, opening_bytes, order_and_holder, order_byte, outcome_bytes, record_bytes, record_in, says_initialized, track_bytes, volume_bytes, volume_in, words_from};
ghost use Rattle.abi.specs.Unread.{filled_in, known, nothing_read, read_in};
ghost use Rattle.unit.specs.Standing.{by_value, table};
ghost use Rattle.wire.specs.Promise.{Says};
ghost use Rattle.wire.specs.Storing.{written};

use geometry::{Geometry, Volume, VolumeNumber};
use unit::{Controller, Record, Unit, holder_number, holder_of};

// What stands in a table for a track that was not read: no track has this number.
const UNREAD: u32 = 0xFFFF_FFFF;

fn volume(bytes: &[u8], at: usize) -> Volume
    requires { at + 2 ≤ length bytes.now }
    ensures { result ≡ volume_in bytes.now at }
{
    Volume::new(bytes[at], bytes[at + 1])
}

fn geometry(bytes: &[u8]) -> Geometry
    requires { 17 ≤ length bytes.now }
    ensures { result ≡ geometry_in bytes.now }
{
    Geometry::new(
        wire::be16(bytes, 4),
        wire::be16(bytes, 6),
        wire::be16(bytes, 8),
        volume(bytes, 10),
        volume(bytes, 12),
    )
    .with_increment(bytes[16] != 1)
}

// Whether the record in some bytes says that its unit is initialized.
fn says_initialized(bytes: &[u8]) -> bool
    requires { 276 ≤ length bytes.now }
    ensures { result ≡ says_initialized bytes.now }
{
    wire::be32(bytes, 0) == 0x0201_0114 && bytes[16] <= 1 && bytes[17] <= 2
}

// Who holds the drive, by a record of this layout.
fn holder(bytes: &[u8]) -> Option<Controller>
    requires { 276 ≤ length bytes.now }
    ensures { result ≡ holder_in bytes.now }
{
    if bytes[0] != 2 || wire::be16(bytes, 2) != 0x0114 {
        return None;
    }
    holder_of(u16::from(bytes[17]))
}

// The record that stands in some bytes, but for its table.
fn record(bytes: &[u8]) -> Record
    requires { 276 ≤ length bytes.now }
    ensures { result ≡ by_value (record_in bytes.now) }
{
    Record::new(
        says_initialized(bytes),
        geometry(bytes),
        wire::be16(bytes, 14),
        wire::be16(bytes, 18),
    )
    .held_by(holder(bytes))
}

// Reads the tracks of the pairs that count. With none, no byte is read and the table stays as it is.
fn read_tracks(bytes: &[u8], pairs: u16, table: &mut [u32; 64])
    requires { 276 ≤ length bytes.now }
    ensures { table.new ≡ written table.old 0 (words_from bytes.now 20 (2 * min pairs 32)) }
{
    let count = 2 * spares::in_room(pairs);
    for i in 0..count {
        table[i] = wire::be32(bytes, 20 + 4 * i);
    }
}

// A unit of which nothing was read.
pub(crate) fn unread() -> Unit
    ensures { table result ≡ nothing_read }
{
    Unit {
        value: Record::blank(),
        tracks: [UNREAD; 64],
    }
}

// Reads the unit that stands in some bytes into one of which nothing was read, where it is lent from then on. Of its tracks those that count are read, and no
// other is looked at.
pub(crate) fn unit_in(bytes: &[u8], u: &mut Unit)
    requires { (276 ≤ length bytes.now) × (table u.old ≡ nothing_read) }
    ensures { u.new ≡ read_in bytes.now }
{
    u.value = record(bytes);
    read_tracks(bytes, u.value.pairs(), &mut u.tracks);
}

// How many tracks at the head of a table are known: those of the pairs that count, and all of them once a block has cleared the table.
#[tactic(auto, using(crate::proofs::Unread::known_all, crate::proofs::Unread::known_unread))]
fn known_tracks(table: &[u32; 64], pairs: u16) -> usize
    ensures value { result ≡ known pairs table.now }
    ensures most { result ≤ 64 }
{
    if table[63] == UNREAD {
        2 * spares::in_room(pairs)
    } else {
        64
    }
}

// Whether the first m tracks of a table stand in some bytes.
fn holds_tracks(bytes: &[u8], m: usize, table: &[u32; 64]) -> bool
    requires { (276 ≤ length bytes.now) × (m ≤ 64) }
    ensures { Says result (words_from bytes.now 20 m ≡ take m table.now) }
{
    for k in 0..m {
        if wire::be32(bytes, 20 + 4 * k) != table[k] {
            return false;
        }
    }
    true
}

// Whether a record, with the tracks that were not read as they stand in some bytes, is the one that stands there. That each of them is a byte, as their
// type says, is told to whoever asks.
fn stands_in(bytes: &[u8], u: &Unit) -> bool
    requires { 276 ≤ length bytes.now }
    ensures fact { let before = bytes.now in
        Says result (record_in before ≡ filled_in before u.now) }
    ensures bytes { (i : ℕ) → get_or bytes.now i 0 < 256 }
{
    record(bytes).same(u.value)
        && holds_tracks(bytes, known_tracks(&u.tracks, u.pairs()), &u.tracks)
}

fn put_two(bytes: &mut [u8], at: usize, first: u8, second: u8)
    requires { at + 2 ≤ length bytes.old }
    ensures { bytes.new ≡ written bytes.old at (first ∷ second ∷ []) }
{
    bytes[at] = first;
    bytes[at + 1] = second;
}

fn put_volume(bytes: &mut [u8], at: usize, v: Volume)
    requires { at + 2 ≤ length bytes.old }
    ensures { bytes.new ≡ written bytes.old at (volume_bytes v) }
{
    put_two(bytes, at, v.start_head(), v.heads());
}

// A yes or no as a byte.
pub(crate) fn flag(yes: bool) -> u8
    ensures { result ≡ cond yes 0x01 0x00 }
{
    u8::from(yes)
}

// The byte of an order.
fn order_byte(by_head: bool) -> u8
    ensures { result ≡ order_byte by_head }
{
    u8::from(!by_head)
}

fn put_opening(bytes: &mut [u8], initialized: bool)
    requires { 16 ≤ length bytes.old }
    ensures { bytes.new ≡ written bytes.old 0 (opening_bytes initialized) }
{
    put_two(bytes, 0, 0x02, flag(initialized));
    put_two(bytes, 2, 0x01, 0x14);
}

fn put_geometry(bytes: &mut [u8], g: Geometry)
    requires { 16 ≤ length bytes.old }
    ensures { bytes.new ≡ written bytes.old 4 (geometry_bytes g) }
{
    wire::put16(bytes, 4, g.cylinders());
    wire::put16(bytes, 6, g.sectors_a_track());
    wire::put16(bytes, 8, g.bytes_a_sector());
    put_volume(bytes, 10, g.volume(VolumeNumber::Zero));
    put_volume(bytes, 12, g.volume(VolumeNumber::One));
}

fn put_order_and_holder(bytes: &mut [u8], u: &Unit)
    requires { 18 ≤ length bytes.old }
    ensures { bytes.new ≡ written bytes.old 16 (order_and_holder u.now) }
{
    let order = order_byte(u.geometry().by_head());
    put_two(bytes, 16, order, holder_number(u.holder()));
}

// Stores the first m tracks of a table, and no others: bytes past them stay as they are.
fn put_tracks(bytes: &mut [u8], table: &[u32; 64], m: usize)
    requires { (276 ≤ length bytes.old) × (m ≤ 64) }
    ensures { bytes.new ≡ written bytes.old 20 (track_bytes (take m table.now)) }
{
    for i in 0..m {
        wire::put32(bytes, 20 + 4 * i, table[i]);
    }
}

// Stores a record, its tracks as far as they are known: the others stand there.
fn put_record(bytes: &mut [u8], u: &Unit)
    requires { (276 ≤ length bytes.old) × ((i : ℕ) → get_or bytes.old i 0 < 256) }
    ensures { let before = bytes.old in
        bytes.new ≡ written before 0 (record_bytes (filled_in before u.now)) }
{
    put_opening(bytes, u.value.initialized());
    put_geometry(bytes, u.geometry());
    wire::put16(bytes, 14, u.cylinder());
    put_order_and_holder(bytes, u);
    wire::put16(bytes, 18, u.pairs());
    put_tracks(bytes, &u.tracks, known_tracks(&u.tracks, u.pairs()));
}

// Stores a record where it is another than the one that stands there. Tracks that were not read are those that stand there.
pub(crate) fn leave_record(bytes: &mut [u8], u: &Unit)
    requires { 276 ≤ length bytes.old }
    ensures { let before = bytes.old in
        bytes.new ≡ record_left before (filled_in before u.now) }
{
    if !stands_in(bytes, u) {
        put_record(bytes, u);
    }
}

pub(crate) fn put_outcome(bytes: &mut [u8], answer: u8, failed: u8, blocks: u32, sectors: u32)
    requires { 16 ≤ length bytes.old }
    ensures { bytes.new ≡ written bytes.old 0 (outcome_bytes answer failed blocks sectors) }
{
    wire::put32(bytes, 0, 0x0200_0010);
    put_two(bytes, 4, answer, failed);
    put_two(bytes, 6, 0x00, 0x00);
    wire::put32(bytes, 8, blocks);
    wire::put32(bytes, 12, sectors);
}
