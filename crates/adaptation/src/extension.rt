// The adaptation field extension (`AdaptationFieldExtension` of the original's packet.rs), read off the extension's bytes, without
// the length byte before them.
#![tactic(auto, using(crate::proofs::Laws::extension_laws))]

ghost use Rattle.std.specs.Prelude.{◌≡◌};
ghost use Rattle.bits.specs.Refused.{given, number_values};
ghost use Rattle.adaptation.specs.Extension.{ltw_values, splice_values, read_ltw, read_rate, read_splice, rate_at, seamless_at};

use crate::field::Field;
use bits::Refusal;
use timestamp::Timestamp;

// The flags, by their bit.
const LTW: u32 = 0;

const PIECEWISE_RATE: u32 = 1;

const SEAMLESS_SPLICE: u32 = 2;

const BIT_16: u32 = 1 << 16;

#[derive(Clone, Copy, Debug, PartialEq, Eq)]
pub struct SeamlessSplice {
    pub splice_type: u8,
    // The decoding time of the access unit after the splicing point.
    pub dts_next_au: Timestamp,
}

// The legal time window offset; a field that is there may say that it is not valid.
pub fn ltw_offset(buf: &[u8]) -> Result<Option<u16>, Refusal>
    ensures { given ltw_values result ≡ read_ltw buf.now }
{
    let field = Field::new(buf, Refusal::NotEnoughData)?;
    if !field.flag(LTW) {
        return Err(Refusal::FieldNotPresent);
    }
    let bytes = field.bytes_at(1, 2)?;
    if bytes[0] / 128 == 0 {
        return Ok(None);
    }
    Ok(Some(bytes[0] as u16 % 128 * 256 + bytes[1] as u16))
}

fn piecewise_rate_offset(field: Field) -> usize
    ensures { result ≡ rate_at field.entry.buf.now }
{
    if field.flag(LTW) { 3 } else { 1 }
}

pub fn piecewise_rate(buf: &[u8]) -> Result<u32, Refusal>
    ensures { given number_values result ≡ read_rate buf.now }
{
    let field = Field::new(buf, Refusal::NotEnoughData)?;
    if !field.flag(PIECEWISE_RATE) {
        return Err(Refusal::FieldNotPresent);
    }
    let off = piecewise_rate_offset(field);
    let bytes = field.bytes_at(off, 3)?;
    Ok(bytes[0] as u32 % 64 * BIT_16 + bytes[1] as u32 * 256 + bytes[2] as u32)
}

fn seamless_splice_offset(field: Field) -> usize
    ensures { result ≡ seamless_at field.entry.buf.now }
{
    let off = piecewise_rate_offset(field);
    if field.flag(PIECEWISE_RATE) {
        off + 3
    } else {
        off
    }
}

pub fn seamless_splice(buf: &[u8]) -> Result<SeamlessSplice, Refusal>
    ensures { given splice_values result ≡ read_splice buf.now }
{
    let field = Field::new(buf, Refusal::NotEnoughData)?;
    if !field.flag(SEAMLESS_SPLICE) {
        return Err(Refusal::FieldNotPresent);
    }
    let off = seamless_splice_offset(field);
    let bytes = field.bytes_at(off, 5)?;
    let dts_next_au = Timestamp::from_bytes(bytes)?;
    Ok(SeamlessSplice {
        splice_type: bytes[0] / 16,
        dts_next_au,
    })
}
