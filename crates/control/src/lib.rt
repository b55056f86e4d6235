// The small types of the original's packet.rs: the control bits of a packet's fourth byte, clock references, counters and PIDs.
#![tactic(auto, using(crate::proofs::Laws::control_laws))]

ghost use Rattle.std.specs.Prelude.{◌≡◌};
ghost use Rattle.bits.specs.Answer.{answer};
ghost use Rattle.bits.specs.Numbers.{done};
ghost use Rattle.bits.specs.Refused.{given, number_values};
ghost use Rattle.control.specs.Clock.{clock_values, read_clock, make_clock, clock_number};
ghost use Rattle.control.specs.Control.{has_adaptation_field, has_payload, is_scrambled, scheme_values, read_scheme, compare, follows};
ghost use Rattle.control.specs.Control.{counter_values, make_counter, counter_of, pid_values, make_pid, pid_of};

use bits::{Refusal, wide};

// The adaptation_field_control bits; the other bits of the byte are kept and not looked at.
#[derive(Clone, Copy, Debug, PartialEq, Eq)]
pub struct AdaptationControl(u8);

impl AdaptationControl {
    // Of the fourth byte of a packet.
    pub fn new(byte: u8) -> AdaptationControl
        ensures { result.0 ≡ byte }
    {
        AdaptationControl(byte)
    }

    pub fn has_payload(self) -> bool
        ensures { result ≡ has_payload self.0 }
    {
        self.0 / 16 % 2 == 1
    }

    pub fn has_adaptation_field(self) -> bool
        ensures { result ≡ has_adaptation_field self.0 }
    {
        self.0 / 32 % 2 == 1
    }
}

// The transport_scrambling_control bits; the other bits of the byte are kept and not looked at.
#[derive(Clone, Copy, Debug, PartialEq, Eq)]
pub struct TransportScramblingControl(u8);

impl TransportScramblingControl {
    // Of the fourth byte of a packet.
    pub fn from_byte_four(val: u8) -> TransportScramblingControl
        ensures { result.0 ≡ val }
    {
        TransportScramblingControl(val)
    }

    pub fn is_scrambled(self) -> bool
        ensures { result ≡ is_scrambled self.0 }
    {
        self.0 / 64 != 0
    }

    // The scheme in use, if any.
    pub fn scheme(self) -> Option<u8>
        ensures { answer done (scheme_values result) ≡ read_scheme self.0 }
    {
        let scheme = self.0 / 64;
        if scheme == 0 {
            return None;
        }
        Some(scheme)
    }
}

const BIT_9: u64 = 1 << 9;

const BIT_17: u64 = 1 << 17;

const BIT_25: u64 = 1 << 25;

// A 27 MHz clock reading: PCR, OPCR and ESCR.
#[derive(Clone, Copy, Debug, PartialEq, Eq)]
pub struct ClockRef {
    base: u64,
    extension: u16,
}

impl ClockRef {
    // The clock reference in the first 6 bytes.
    pub fn from_slice(buf: &[u8]) -> Result<ClockRef, Refusal>
        ensures { given clock_values result ≡ read_clock buf.now }
    {
        if buf.len() < 6 {
            return Err(Refusal::WrongLength);
        }
        let b0 = wide(buf[0]);
        let b1 = wide(buf[1]);
        let b2 = wide(buf[2]);
        let b3 = wide(buf[3]);
        let b4 = wide(buf[4]);
        let b5 = wide(buf[5]);
        Ok(ClockRef {
            base: b0 * BIT_25 + b1 * BIT_17 + b2 * BIT_9 + b3 * 2 + b4 / 128,
            extension: (b4 % 2 * 256 + b5) as u16,
        })
    }

    // The clock reference of a base below 2^33 and an extension below 2^9.
    pub fn from_parts(base: u64, extension: u16) -> Result<ClockRef, Refusal>
        ensures { given clock_values result ≡ make_clock base extension }
    {
        if 1 << 33 <= base {
            return Err(Refusal::OutOfRange);
        }
        if 1 << 9 <= extension {
            return Err(Refusal::OutOfRange);
        }
        Ok(ClockRef { base, extension })
    }

    pub fn base(self) -> u64
        ensures { result ≡ self.base }
    {
        self.base
    }

    pub fn extension(self) -> u16
        ensures { result ≡ self.extension }
    {
        self.extension
    }
}

impl TryFrom<ClockRef> for u64 {
    type Error = Refusal;

    ghost try_from_gives = { λ c r. given number_values r ≡ clock_number c.base c.extension };

    fn try_from(value: ClockRef) -> Result<u64, Refusal> {
        if 1 << 33 <= value.base {
            return Err(Refusal::OutOfRange);
        }
        if 1 << 9 <= value.extension {
            return Err(Refusal::OutOfRange);
        }
        Ok(value.base * 300 + value.extension as u64)
    }
}

// A counter that shows where packets were lost: 0 to 15, one more with each packet that has a payload.
#[derive(Clone, Copy, Debug, PartialEq, Eq)]
pub struct ContinuityCounter {
    val: u8,
}

// A counter beside the last one: one more modulo 16, the same, or neither.
#[derive(Clone, Copy, Debug, PartialEq, Eq)]
pub enum Compared {
    Next,
    Same,
    Jump,
}

impl ContinuityCounter {
    pub fn new(count: u8) -> Result<ContinuityCounter, Refusal>
        ensures { given counter_values result ≡ make_counter count }
    {
        if 16 <= count {
            return Err(Refusal::OutOfRange);
        }
        Ok(ContinuityCounter { val: count })
    }

    // Of the fourth byte of a packet.
    pub fn from_byte_four(val: u8) -> ContinuityCounter
        ensures { result.val ≡ counter_of val }
    {
        ContinuityCounter { val: val % 16 }
    }

    pub fn count(self) -> u8
        ensures { result ≡ self.val }
    {
        self.val
    }

    pub fn compare(self, last: ContinuityCounter) -> Compared
        ensures { result ≡ compare self.val last.val }
    {
        if (last.val % 16 + 1) % 16 == self.val {
            return Compared::Next;
        }
        if self.val == last.val {
            return Compared::Same;
        }
        Compared::Jump
    }

    // Whether this counter comes straight after `other`.
    pub fn follows(self, other: ContinuityCounter) -> bool
        ensures { result ≡ follows self.val other.val }
    {
        self.compare(other) == Compared::Next
    }
}

// A packet identifier: 13 bits.
#[derive(Clone, Copy, Debug, PartialEq, Eq)]
pub struct Pid(u16);

impl Pid {
    pub const MAX_VALUE: u16 = 0x1fff;

    pub const PID_COUNT: usize = Pid::MAX_VALUE as usize + 1;

    pub fn new(pid: u16) -> Result<Pid, Refusal>
        ensures { given pid_values result ≡ make_pid pid }
    {
        if Pid::MAX_VALUE < pid {
            return Err(Refusal::OutOfRange);
        }
        Ok(Pid(pid))
    }

    // Of the second and third bytes of a packet.
    pub fn from_bytes(high: u8, low: u8) -> Pid
        ensures { result.0 ≡ pid_of high low }
    {
        Pid(high as u16 % 32 * 256 + low as u16)
    }
}

// The same as `new`: what the original asserts there, it answers here by an error.
impl TryFrom<u16> for Pid {
    type Error = Refusal;

    ghost try_from_gives = { λ n r. given pid_values r ≡ make_pid n };

    fn try_from(value: u16) -> Result<Pid, Refusal> {
        Pid::new(value)
    }
}

impl From<Pid> for u16 {
    ghost from_gives = { λ p n. n ≡ p.0 };

    fn from(pid: Pid) -> u16 {
        pid.0
    }
}

impl From<Pid> for usize {
    ghost from_gives = { λ p n. n ≡ p.0 };

    fn from(pid: Pid) -> usize {
        pid.0 as usize
    }
}
