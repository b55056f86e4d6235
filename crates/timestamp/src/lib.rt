// The 33-bit timestamps of the standard, PTS and DTS (`Timestamp` of the original's pes.rs).
#![tactic(auto, using(crate::proofs::Laws::timestamp_laws))]

ghost use Rattle.std.specs.Prelude.{◌≡◌};
ghost use Rattle.bits.specs.Refused.{given};
ghost use Rattle.timestamp.specs.Stamp.{timestamp_values, make_stamp, read_stamp, read_prefixed, pts_prefix, dts_prefix, likely_wrapped};

use bits::{Refusal, wide_u32};

const BIT_15: u32 = 1 << 15;

const BIT_22: u32 = 1 << 22;

const BIT_30: u32 = 1 << 30;

const BIT_32: u64 = 1 << 32;

#[derive(Clone, Copy, Debug, PartialEq, Eq)]
pub struct Timestamp {
    val: u64,
}

impl Timestamp {
    // The largest value before the timestamp wraps back to zero.
    pub const MAX: Timestamp = Timestamp { val: (1 << 33) - 1 };

    // The 90 kHz timebase of the values.
    pub const TIMEBASE: u64 = 90_000;

    // The timestamp in the first 5 bytes, under the prefix of a PTS that stands alone.
    pub fn from_pts_bytes(buf: &[u8]) -> Result<Timestamp, Refusal>
        ensures { given timestamp_values result ≡ read_prefixed pts_prefix buf.now }
    {
        Timestamp::from_prefixed(buf, 0b0010)
    }

    // The timestamp in the first 5 bytes, under the prefix of a DTS.
    pub fn from_dts_bytes(buf: &[u8]) -> Result<Timestamp, Refusal>
        ensures { given timestamp_values result ≡ read_prefixed dts_prefix buf.now }
    {
        Timestamp::from_prefixed(buf, 0b0001)
    }

    // The length is tested before the prefix, so that 1 comes before 13.
    fn from_prefixed(buf: &[u8], expected: u8) -> Result<Timestamp, Refusal>
        ensures { given timestamp_values result ≡ read_prefixed expected buf.now }
    {
        if buf.len() < 5 {
            return Err(Refusal::WrongLength);
        }
        let actual = buf[0] / 16;
        if actual != expected {
            return Err(Refusal::IncorrectPrefixBits { expected, actual });
        }
        Timestamp::from_bytes(buf)
    }

    // The timestamp in the first 5 bytes; its prefix is not looked at.
    pub fn from_bytes(buf: &[u8]) -> Result<Timestamp, Refusal>
        ensures { given timestamp_values result ≡ read_stamp buf.now }
    {
        if buf.len() < 5 {
            return Err(Refusal::WrongLength);
        }
        let b0 = buf[0];
        let b1 = buf[1];
        let b2 = buf[2];
        let b3 = buf[3];
        let b4 = buf[4];
        if b0 % 2 == 0 {
            return Err(Refusal::MarkerBitNotSet { bit_number: 7 });
        }
        if b2 % 2 == 0 {
            return Err(Refusal::MarkerBitNotSet { bit_number: 23 });
        }
        if b4 % 2 == 0 {
            return Err(Refusal::MarkerBitNotSet { bit_number: 39 });
        }
        // Two halves, the lower of 32 bits: on a 32-bit processor their join is a move between registers, and no 64-bit shift is needed. The bits
        // of b0 are cut out before they are widened: of that a compiler for a 64-bit processor makes one shift for both halves.
        let low = wide_u32(b4) / 2
            + wide_u32(b3) * 128
            + wide_u32(b2) / 2 * BIT_15
            + wide_u32(b1) * BIT_22
            + wide_u32(b0 / 2 % 4) * BIT_30;
        let high = wide_u32(b0 / 8 % 2);
        Ok(Timestamp {
            val: high as u64 * BIT_32 + low as u64,
        })
    }

    // The timestamp of a number below 2^34.
    pub fn from_u64(val: u64) -> Result<Timestamp, Refusal>
        ensures { given timestamp_values result ≡ make_stamp val }
    {
        if 1 << 34 <= val {
            return Err(Refusal::OutOfRange);
        }
        Ok(Timestamp { val })
    }

    pub fn value(self) -> u64
        ensures { result ≡ self.val }
    {
        self.val
    }

    // Whether the time has likely wrapped to zero since `since`, given that the two are less than half the range apart.
    pub fn likely_wrapped_since(self, since: Timestamp) -> bool
        ensures { result ≡ likely_wrapped self.val since.val }
    {
        self.val <= since.val && since.val - self.val > Timestamp::MAX.val / 2
    }
}
