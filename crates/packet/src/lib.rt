// The transport packet (`Packet` of the original's packet.rs), read off a slice: each reader refuses a slice that is no packet.
#![tactic(auto, using(crate::proofs::Laws::packet_laws))]

ghost use Rattle.std.specs.Prelude.{◌≡◌, ℕ, ◌<◌, IfOk, eqb, length, get_or};
ghost use Rattle.bits.specs.Answer.{part_of};
ghost use Rattle.bits.specs.Field.{flag};
ghost use Rattle.bits.specs.Refused.{given, no_values, flag_values, extent_values};
ghost use Rattle.control.specs.Control.{pid_values, counter_values};
ghost use Rattle.packet.specs.Packet.{scrambling_values, control_values, tried, read_flag, error_bit, start_bit, priority_bit, start_of};
ghost use Rattle.packet.specs.Packet.{start_flag, pid_field, counter_field, content_at, read_pid, read_byte_four, read_counter, after_field, read_adaptation, read_payload};

use bits::{Extent, Refusal};
use control::{AdaptationControl, ContinuityCounter, Pid, TransportScramblingControl};

// The value of the first byte of every packet.
pub const SYNC_BYTE: u8 = 0x47;

// The size of every packet, in bytes.
pub const SIZE: usize = 188;

// The size of every packet's header, in bytes: the content starts after it where there is no adaptation field.
pub const HEADER_SIZE: usize = 4;

pub fn is_sync_byte(b: u8) -> bool
    ensures { result ≡ eqb b 0x47 }
{
    b == SYNC_BYTE
}

// payload_unit_start_indicator, of a packet's second byte.
pub fn start_indicator(second: u8) -> bool
    ensures { result ≡ start_of second }
{
    second / 64 % 2 == 1
}

// Where the content starts after an adaptation field, of the field's length byte: a packet's fifth.
pub fn content_after(fifth: u8) -> usize
    ensures { result ≡ after_field fifth }
{
    HEADER_SIZE + 1 + fifth as usize
}

// A packet: 188 bytes, of which the first is the sync byte.
#[derive(Clone, Copy)]
pub struct Packet<'a> {
    bytes: &'a [u8],
    pub ghost whole: { length bytes.now ≡ 188 },
    pub ghost synced: { get_or bytes.now 0 0 ≡ 0x47 },
    // each entry is a byte
    pub ghost fits: { (i : ℕ) → get_or bytes.now i 0 < 256 },
}

impl<'a> Packet<'a> {
    pub fn try_new(bytes: &'a [u8]) -> Result<Packet<'a>, Refusal>
        ensures told { given no_values result ≡ tried bytes.now }
        ensures kept { IfOk result (λ p. p.bytes.now ≡ bytes.now) }
    {
        if bytes.len() != SIZE {
            return Err(Refusal::WrongLength);
        }
        if bytes[0] != SYNC_BYTE {
            return Err(Refusal::NoSync);
        }
        Ok(Packet { bytes })
    }

    pub fn transport_error_indicator(self) -> bool
        ensures { result ≡ flag self.entry.bytes.now error_bit }
    {
        self.bytes[1] / 128 % 2 == 1
    }

    pub fn payload_unit_start_indicator(self) -> bool
        ensures { result ≡ start_flag self.entry.bytes.now }
    {
        start_indicator(self.bytes[1])
    }

    pub fn transport_priority(self) -> bool
        ensures { result ≡ flag self.entry.bytes.now priority_bit }
    {
        self.bytes[1] / 32 % 2 == 1
    }

    pub fn pid(self) -> Pid
        ensures { result.0 ≡ pid_field self.entry.bytes.now }
    {
        Pid::from_bytes(self.bytes[1], self.bytes[2])
    }

    pub fn transport_scrambling_control(self) -> TransportScramblingControl
        ensures { result.0 ≡ get_or self.entry.bytes.now 3 0 }
    {
        TransportScramblingControl::from_byte_four(self.bytes[3])
    }

    pub fn adaptation_control(self) -> AdaptationControl
        ensures { result.0 ≡ get_or self.entry.bytes.now 3 0 }
    {
        AdaptationControl::new(self.bytes[3])
    }

    pub fn continuity_counter(self) -> ContinuityCounter
        ensures { result.val ≡ counter_field self.entry.bytes.now }
    {
        ContinuityCounter::from_byte_four(self.bytes[3])
    }

    // Where the adaptation field lies, without its length byte.
    pub fn adaptation_field_at(self) -> Result<Extent, Refusal>
        ensures { given extent_values result ≡ read_adaptation self.entry.bytes.now }
    {
        let control = self.adaptation_control();
        if !control.has_adaptation_field() {
            return Err(Refusal::FieldNotPresent);
        }
        let length = self.bytes[4];
        match (control.has_payload(), length) {
            (true, 1..=182) | (false, 183) => Ok(Extent {
                place: HEADER_SIZE + 1,
                length: length as usize,
            }),
            _ => Err(Refusal::FieldNotPresent),
        }
    }

    // Where the content starts: after the header, or after the adaptation field where there is one.
    pub fn content_at(self) -> usize
        ensures { result ≡ content_at self.entry.bytes.now }
    {
        if self.adaptation_control().has_adaptation_field() {
            content_after(self.bytes[4])
        } else {
            HEADER_SIZE
        }
    }

    // Where the payload lies.
    pub fn payload_at(self) -> Result<Extent, Refusal>
        ensures { given extent_values result ≡ read_payload self.entry.bytes.now }
    {
        if !self.adaptation_control().has_payload() {
            return Err(Refusal::FieldNotPresent);
        }
        let place = self.content_at();
        if SIZE <= place {
            return Err(Refusal::FieldNotPresent);
        }
        Ok(Extent {
            place,
            length: SIZE - place,
        })
    }
}

// Whether the slice is a packet at all.
pub fn try_new(buf: &[u8]) -> Result<(), Refusal>
    ensures { given no_values result ≡ tried buf.now }
{
    Packet::try_new(buf)?;
    Ok(())
}

pub fn transport_error_indicator(buf: &[u8]) -> Result<bool, Refusal>
    ensures { given flag_values result ≡ read_flag error_bit buf.now }
{
    Ok(Packet::try_new(buf)?.transport_error_indicator())
}

pub fn payload_unit_start_indicator(buf: &[u8]) -> Result<bool, Refusal>
    ensures { given flag_values result ≡ read_flag start_bit buf.now }
{
    Ok(Packet::try_new(buf)?.payload_unit_start_indicator())
}

pub fn transport_priority(buf: &[u8]) -> Result<bool, Refusal>
    ensures { given flag_values result ≡ read_flag priority_bit buf.now }
{
    Ok(Packet::try_new(buf)?.transport_priority())
}

pub fn pid(buf: &[u8]) -> Result<Pid, Refusal>
    ensures { given pid_values result ≡ read_pid buf.now }
{
    Ok(Packet::try_new(buf)?.pid())
}

pub fn transport_scrambling_control(buf: &[u8]) -> Result<TransportScramblingControl, Refusal>
    ensures { given scrambling_values result ≡ read_byte_four buf.now }
{
    Ok(Packet::try_new(buf)?.transport_scrambling_control())
}

pub fn adaptation_control(buf: &[u8]) -> Result<AdaptationControl, Refusal>
    ensures { given control_values result ≡ read_byte_four buf.now }
{
    Ok(Packet::try_new(buf)?.adaptation_control())
}

pub fn continuity_counter(buf: &[u8]) -> Result<ContinuityCounter, Refusal>
    ensures { given counter_values result ≡ read_counter buf.now }
{
    Ok(Packet::try_new(buf)?.continuity_counter())
}

// Where the adaptation field lies, without its length byte.
pub fn adaptation_field_at(buf: &[u8]) -> Result<Extent, Refusal>
    ensures { given extent_values result ≡ read_adaptation buf.now }
{
    Packet::try_new(buf)?.adaptation_field_at()
}

// The adaptation field, without its length byte.
pub fn adaptation_field(buf: &[u8]) -> &[u8]
    ensures { result.now ≡ part_of (read_adaptation buf.now) buf.now }
{
    let Ok(field) = adaptation_field_at(buf) else {
        return &[];
    };
    field.of(buf)
}

// Where the payload lies.
pub fn payload_at(buf: &[u8]) -> Result<Extent, Refusal>
    ensures { given extent_values result ≡ read_payload buf.now }
{
    Packet::try_new(buf)?.payload_at()
}

// What the packet carries.
pub fn payload(buf: &[u8]) -> &[u8]
    ensures { result.now ≡ part_of (read_payload buf.now) buf.now }
{
    let Ok(payload) = payload_at(buf) else {
        return &[];
    };
    payload.of(buf)
}
