// What every crate shares: the bit fields of the standard, the answers and their numbers in specs/, and the laws of both in
// proofs/. The code is the step from a byte to a number, a part of a slice, and the copying of one.
#![tactic(auto)]

ghost use Rattle.std.specs.Prelude.{◌≡◌, ◌<◌};
ghost use Rattle.bits.specs.Answer.{part_at, placed_at};

mod refusal;

pub use refusal::Refusal;

// Where a part of a slice lies.
#[derive(Clone, Copy, Debug, PartialEq, Eq)]
pub struct Extent {
    pub place: usize,
    pub length: usize,
}

impl Extent {
    // The part of the slice; none where it would leave it.
    pub fn of(self, buf: &[u8]) -> &[u8]
        ensures { result.now ≡ part_at self.place self.length buf.now }
    {
        part(buf, self.place, self.length)
    }
}

// A byte as a 64-bit number, with its bound.
pub fn wide(b: u8) -> u64
    ensures { (result ≡ b) × (result < 256) }
{
    b as u64
}

// A byte as a 32-bit number, with its bound.
pub fn wide_u32(b: u8) -> u32
    ensures { (result ≡ b) × (result < 256) }
{
    b as u32
}

// The bytes of a slice from a place on, as many as said; none where they would leave the slice.
pub fn part(buf: &[u8], place: usize, length: usize) -> &[u8]
    ensures { result.now ≡ part_at place length buf.now }
{
    if buf.len() < place {
        return &buf[0..0];
    }
    if buf.len() - place < length {
        return &buf[0..0];
    }
    let end = place + length;
    &buf[place..end]
}

// The bytes of one slice into another from a place on; nothing where they would leave it.
pub fn copy_at(from: &[u8], into: &mut [u8], place: usize)
    ensures { into.new ≡ placed_at into.old place from.now }
{
    if into.len() < place {
        return;
    }
    if into.len() - place < from.len() {
        return;
    }
    into[place..place + from.len()].copy_from_slice(from);
}
