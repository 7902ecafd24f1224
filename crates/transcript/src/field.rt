// Fields: what opens one, how many bytes it takes, and whether all of it is there.
ghost use Rattle.std.specs.Prelude.{◌≡◌, ◌≤◌};
ghost use Rattle.transcript.specs.Session.{Field, Opening};
ghost use Rattle.transcript.specs.Steps.{wanted};
ghost use Rattle.wire.specs.Promise.{Says};

// Whether a field of this tag may have this length.
fn length_fits(tag: u8, long: u16) -> bool
    ensures { Says result ((long ≤ 16384) × (tag ≡ 4 → long ≡ 5)) }
{
    if tag == 4 { long == 5 } else { long <= 16384 }
}

// Whether a field begins so.
fn opens(bytes: &[u8]) -> bool
    ensures { Says result (Opening bytes.now) }
{
    3 <= bytes.len() && (1..=4).contains(&bytes[0]) && length_fits(bytes[0], wire::be16(bytes, 1))
}

// How many bytes of the input the field takes that begins with these. With a bad opening it is refused for the 3 bytes alone.
pub fn wanted(bytes: &[u8]) -> usize
    ensures { result ≡ wanted bytes.now }
{
    if !opens(bytes) {
        return 3;
    }
    3 + (wire::be16(bytes, 1) as usize)
}

// Whether the bytes begin with a field, and all of it is there.
pub(crate) fn is_field(bytes: &[u8]) -> bool
    ensures { Says result (Field bytes.now) }
{
    opens(bytes) && 3 + (wire::be16(bytes, 1) as usize) <= bytes.len()
}
