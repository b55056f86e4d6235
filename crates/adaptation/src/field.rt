// What the adaptation field and its extension have in common: a byte of flags, and then the parts that are flagged, one after another.
#![tactic(auto, using(crate::proofs::Laws::flagged_laws))]

ghost use Rattle.std.specs.Prelude.{◌≡◌, ◌+◌, ◌≤◌, ◌<◌, length, drop, MatchResult};
ghost use Rattle.bits.specs.Field.{flag};
ghost use Rattle.bits.specs.declared.refusal.Refusal.TheVariants.{NotEnoughData};

use bits::Refusal;

// Bytes of which the first has the flags: it is there.
#[derive(Clone, Copy)]
pub(crate) struct Field<'buf> {
    pub(crate) buf: &'buf [u8],
    ghost some: { 0 < length buf.now },
}

impl<'buf> Field<'buf> {
    // Where there are no bytes, the refusal is the given one.
    pub(crate) fn new(buf: &'buf [u8], none: Refusal) -> Result<Field<'buf>, Refusal>
        ensures { MatchResult result (λ f. f.buf.now ≡ buf.now) (λ r. (r ≡ none) × (length buf.now ≡ 0)) }
    {
        if buf.len() == 0 {
            return Err(none);
        }
        Ok(Field { buf })
    }

    // The flag at bit i, the top one first.
    pub(crate) fn flag(self, i: u32) -> bool
        requires { i < 8 }
        ensures { result ≡ flag self.entry.buf.now i }
    {
        (self.buf[0] >> (7 - i)) % 2 == 1
    }

    // The bytes from a place on, where there are as many as said.
    pub(crate) fn bytes_at(self, off: usize, size: usize) -> Result<&'buf [u8], Refusal>
        ensures { let xs = self.entry.buf.now in
            MatchResult result (λ s. (off + size ≤ length xs) × (s.now ≡ drop off xs))
            (λ r. (r ≡ NotEnoughData) × (length xs < off + size)) }
    {
        match self.buf.get(off..) {
            Some(bytes) if size <= bytes.len() => Ok(bytes),
            _ => Err(Refusal::NotEnoughData),
        }
    }
}
