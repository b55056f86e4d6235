// The adaptation field of a packet (`AdaptationField` of the original's packet.rs), read off the field's bytes, without the length
// byte before them. The extension's readers are in the module extension.
#![tactic(auto, using(crate::proofs::Laws::adaptation_laws))]

ghost use Rattle.std.specs.Prelude.{◌≡◌, ◌+◌, ◌≤◌, ◌<◌, length, get_or, MatchResult};
ghost use Rattle.bits.specs.Answer.{part_of};
ghost use Rattle.bits.specs.Refused.{given, number_values, flag_values, extent_values};
ghost use Rattle.bits.specs.declared.refusal.Refusal.TheVariants.{NotEnoughData};
ghost use Rattle.control.specs.Clock.{clock_values};
ghost use Rattle.adaptation.specs.Adaptation.{read_flag, read_pcr, read_opcr, read_splice_countdown, read_private_data, read_extension};
ghost use Rattle.adaptation.specs.Adaptation.{opcr_at, splice_at, private_at, extension_at, measured_end};

use bits::{Extent, Refusal};
use control::ClockRef;
use field::Field;

pub mod extension;
mod field;

// The flags, by their bit.
const DISCONTINUITY: u32 = 0;

const RANDOM_ACCESS: u32 = 1;

const ELEMENTARY_STREAM_PRIORITY: u32 = 2;

const PCR: u32 = 3;

const OPCR: u32 = 4;

const SPLICING_POINT: u32 = 5;

const TRANSPORT_PRIVATE_DATA: u32 = 6;

const ADAPTATION_FIELD_EXTENSION: u32 = 7;

const PCR_SIZE: usize = 6;

pub fn discontinuity_indicator(buf: &[u8]) -> Result<bool, Refusal>
    ensures { given flag_values result ≡ read_flag 0 buf.now }
{
    Ok(Field::new(buf, Refusal::WrongLength)?.flag(DISCONTINUITY))
}

pub fn random_access_indicator(buf: &[u8]) -> Result<bool, Refusal>
    ensures { given flag_values result ≡ read_flag 1 buf.now }
{
    Ok(Field::new(buf, Refusal::WrongLength)?.flag(RANDOM_ACCESS))
}

pub fn elementary_stream_priority_indicator(buf: &[u8]) -> Result<bool, Refusal>
    ensures { given flag_values result ≡ read_flag 2 buf.now }
{
    Ok(Field::new(buf, Refusal::WrongLength)?.flag(ELEMENTARY_STREAM_PRIORITY))
}

// The program clock reference.
pub fn pcr(buf: &[u8]) -> Result<ClockRef, Refusal>
    ensures { given clock_values result ≡ read_pcr buf.now }
{
    let field = Field::new(buf, Refusal::WrongLength)?;
    if !field.flag(PCR) {
        return Err(Refusal::FieldNotPresent);
    }
    ClockRef::from_slice(field.bytes_at(1, PCR_SIZE)?)
}

fn opcr_offset(field: Field) -> usize
    ensures { result ≡ opcr_at field.entry.buf.now }
{
    if field.flag(PCR) { 1 + PCR_SIZE } else { 1 }
}

// The original program clock reference.
pub fn opcr(buf: &[u8]) -> Result<ClockRef, Refusal>
    ensures { given clock_values result ≡ read_opcr buf.now }
{
    let field = Field::new(buf, Refusal::WrongLength)?;
    if !field.flag(OPCR) {
        return Err(Refusal::FieldNotPresent);
    }
    let off = opcr_offset(field);
    ClockRef::from_slice(field.bytes_at(off, PCR_SIZE)?)
}

fn splice_countdown_offset(field: Field) -> usize
    ensures { result ≡ splice_at field.entry.buf.now }
{
    let off = opcr_offset(field);
    if field.flag(OPCR) {
        off + PCR_SIZE
    } else {
        off
    }
}

// The packets left to a splicing point.
pub fn splice_countdown(buf: &[u8]) -> Result<u8, Refusal>
    ensures { given number_values result ≡ read_splice_countdown buf.now }
{
    let field = Field::new(buf, Refusal::WrongLength)?;
    if !field.flag(SPLICING_POINT) {
        return Err(Refusal::FieldNotPresent);
    }
    let off = splice_countdown_offset(field);
    Ok(field.bytes_at(off, 1)?[0])
}

fn transport_private_data_offset(field: Field) -> usize
    ensures { result ≡ private_at field.entry.buf.now }
{
    let off = splice_countdown_offset(field);
    if field.flag(SPLICING_POINT) {
        off + 1
    } else {
        off
    }
}

// The bytes after a length byte at a place.
fn measured(field: Field, off: usize) -> Result<Extent, Refusal>
    ensures { let xs = field.entry.buf.now in
        MatchResult result (λ e. (e.place ≡ off + 1) × (e.length ≡ get_or xs off 0) × (measured_end xs off ≤ length xs))
        (λ r. (r ≡ NotEnoughData) × (length xs < measured_end xs off)) }
{
    let length = field.bytes_at(off, 1)?[0] as usize;
    field.bytes_at(off + 1, length)?;
    Ok(Extent {
        place: off + 1,
        length,
    })
}

// Where the private data lies, without its length byte.
pub fn transport_private_data_at(buf: &[u8]) -> Result<Extent, Refusal>
    ensures { given extent_values result ≡ read_private_data buf.now }
{
    let field = Field::new(buf, Refusal::WrongLength)?;
    if !field.flag(TRANSPORT_PRIVATE_DATA) {
        return Err(Refusal::FieldNotPresent);
    }
    measured(field, transport_private_data_offset(field))
}

// The private data, without its length byte.
pub fn transport_private_data(buf: &[u8]) -> &[u8]
    ensures { result.now ≡ part_of (read_private_data buf.now) buf.now }
{
    let Ok(extent) = transport_private_data_at(buf) else {
        return &buf[0..0];
    };
    extent.of(buf)
}

// Where the private data's length byte is missing, this lies past the end too.
fn adaptation_field_extension_offset(field: Field) -> usize
    ensures { result ≡ extension_at field.entry.buf.now }
{
    let off = transport_private_data_offset(field);
    if !field.flag(TRANSPORT_PRIVATE_DATA) {
        return off;
    }
    if field.buf.len() <= off {
        return off + 1;
    }
    off + 1 + field.buf[off] as usize
}

// Where the extension lies, without its length byte.
pub fn adaptation_field_extension_at(buf: &[u8]) -> Result<Extent, Refusal>
    ensures { given extent_values result ≡ read_extension buf.now }
{
    let field = Field::new(buf, Refusal::WrongLength)?;
    if !field.flag(ADAPTATION_FIELD_EXTENSION) {
        return Err(Refusal::FieldNotPresent);
    }
    let extent = measured(field, adaptation_field_extension_offset(field))?;
    if extent.length == 0 {
        return Err(Refusal::NotEnoughData);
    }
    Ok(extent)
}

// The extension, without its length byte.
pub fn adaptation_field_extension(buf: &[u8]) -> &[u8]
    ensures { result.now ≡ part_of (read_extension buf.now) buf.now }
{
    let Ok(extent) = adaptation_field_extension_at(buf) else {
        return &buf[0..0];
    };
    extent.of(buf)
}
