// What follows the head of a PES packet that carries parsed contents (`PesParsedContents` of the original's pes.rs), read off a
// slice that begins after the head's six bytes. Every reader refuses contents that `from_bytes` refuses, and by the same number.
#![tactic(auto, using(crate::proofs::Laws::reader_laws))]

ghost use Rattle.std.specs.Prelude.{◌≡◌, IfOk, [], ◌∷◌, ◌++◌, ℕ, ◌<◌, ◌≤◌, length, get_or, drop};
ghost use Rattle.bits.specs.Answer.{answer, part_of};
ghost use Rattle.bits.specs.Numbers.{done};
ghost use Rattle.bits.specs.Refused.{given, no_values, number_values, extent_values};
ghost use Rattle.bits.specs.Field.{field, flag};
ghost use Rattle.control.specs.Clock.{clock_values};
ghost use Rattle.timestamp.specs.Stamp.{timestamp_values, read_stamp};
ghost use Rattle.contents.specs.Contents.{scrambling_bit, pes_priority_bit, alignment_bit, copyright_bit, original_bit, flags_bit, data_length_bit};
ghost use Rattle.contents.specs.Contents.{pts_bit, escr_bit, es_rate_bit, trick_bit, copy_info_bit, crc_bit, pes_extension_bit};
ghost use Rattle.contents.specs.Contents.{read_contents, read_fixed, read_pts_dts, read_escr, read_es_rate, read_copy_info, read_crc};
ghost use Rattle.contents.specs.Contents.{read_pes_extension, read_parsed_payload};
ghost use Rattle.contents.specs.Contents.{flag_byte, FieldEnds, escr_at, es_rate_at, trick_at, copy_info_at, crc_at, fields_end, payload_at};
ghost use Rattle.contents.specs.Contents.{places_of, read_places};
ghost use Rattle.contents.specs.Contents.{escr_base, escr_extension, escr_answer, rate_of, copy_info_of, make_rate, rate_bytes};
ghost use Rattle.contents.specs.Trick.{read_trick, read_raw_trick, trick_byte, truncation_bits};
ghost use Rattle.contents.specs.Given.{alignment_values, status_values, originality_values, pts_dts_values, rate_values, truncation};
ghost use Rattle.contents.specs.Given.{trick_values, places_values};

mod fields;

use bits::{Extent, Refusal, wide};
use control::ClockRef;
pub use fields::Places;
use timestamp::Timestamp;

const FIXED_HEADER_SIZE: usize = 3;

const TIMESTAMP_SIZE: usize = 5;

// Where the flagged fields end, for each flag byte: after the 3 bytes that are always there and the fields that it announces. 01 announces
// no time, and the extension counts for nothing. A line for the upper four flags, from 0 to F; in it, a number for the lower four.
const FIELD_ENDS: [u8; 256] = *b"\
    \x03\x03\x05\x05\x04\x04\x06\x06\x04\x04\x06\x06\x05\x05\x07\x07\
    \x06\x06\x08\x08\x07\x07\x09\x09\x07\x07\x09\x09\x08\x08\x0A\x0A\
    \x09\x09\x0B\x0B\x0A\x0A\x0C\x0C\x0A\x0A\x0C\x0C\x0B\x0B\x0D\x0D\
    \x0C\x0C\x0E\x0E\x0D\x0D\x0F\x0F\x0D\x0D\x0F\x0F\x0E\x0E\x10\x10\
    \x03\x03\x05\x05\x04\x04\x06\x06\x04\x04\x06\x06\x05\x05\x07\x07\
    \x06\x06\x08\x08\x07\x07\x09\x09\x07\x07\x09\x09\x08\x08\x0A\x0A\
    \x09\x09\x0B\x0B\x0A\x0A\x0C\x0C\x0A\x0A\x0C\x0C\x0B\x0B\x0D\x0D\
    \x0C\x0C\x0E\x0E\x0D\x0D\x0F\x0F\x0D\x0D\x0F\x0F\x0E\x0E\x10\x10\
    \x08\x08\x0A\x0A\x09\x09\x0B\x0B\x09\x09\x0B\x0B\x0A\x0A\x0C\x0C\
    \x0B\x0B\x0D\x0D\x0C\x0C\x0E\x0E\x0C\x0C\x0E\x0E\x0D\x0D\x0F\x0F\
    \x0E\x0E\x10\x10\x0F\x0F\x11\x11\x0F\x0F\x11\x11\x10\x10\x12\x12\
    \x11\x11\x13\x13\x12\x12\x14\x14\x12\x12\x14\x14\x13\x13\x15\x15\
    \x0D\x0D\x0F\x0F\x0E\x0E\x10\x10\x0E\x0E\x10\x10\x0F\x0F\x11\x11\
    \x10\x10\x12\x12\x11\x11\x13\x13\x11\x11\x13\x13\x12\x12\x14\x14\
    \x13\x13\x15\x15\x14\x14\x16\x16\x14\x14\x16\x16\x15\x15\x17\x17\
    \x16\x16\x18\x18\x17\x17\x19\x19\x17\x17\x19\x19\x18\x18\x1A\x1A";

const BIT_13: u64 = 1 << 13;

const BIT_15: u64 = 1 << 15;

const BIT_30: u64 = 1 << 30;

// Contents whose first three bytes are there: these tell where every field begins, whether they are accepted or not.
#[derive(Clone, Copy)]
struct Fixed<'a> {
    buf: &'a [u8],
    ghost there: { 3 ≤ length buf.now },
    // nothing else tells a method that they are bytes
    ghost bytes: { (i : ℕ) → get_or buf.now i 0 < 256 },
}

#[tactic(auto, using(crate::proofs::Laws::fixed_laws))]
impl<'a> Fixed<'a> {
    // The flags of the second byte, in the table's order.
    fn pts_dts_flags(self) -> u8
        ensures { result ≡ field self.entry.buf.now pts_bit 2 }
    {
        self.buf[1] / 64
    }

    fn escr_flag(self) -> bool
        ensures { result ≡ flag self.entry.buf.now escr_bit }
    {
        self.buf[1] / 32 % 2 == 1
    }

    fn esrate_flag(self) -> bool
        ensures { result ≡ flag self.entry.buf.now es_rate_bit }
    {
        self.buf[1] / 16 % 2 == 1
    }

    fn dsm_trick_mode_flag(self) -> bool
        ensures { result ≡ flag self.entry.buf.now trick_bit }
    {
        self.buf[1] / 8 % 2 == 1
    }

    fn additional_copy_info_flag(self) -> bool
        ensures { result ≡ flag self.entry.buf.now copy_info_bit }
    {
        self.buf[1] / 4 % 2 == 1
    }

    fn pes_crc_flag(self) -> bool
        ensures { result ≡ flag self.entry.buf.now crc_bit }
    {
        self.buf[1] / 2 % 2 == 1
    }

    fn pes_extension_flag(self) -> bool
        ensures { result ≡ flag self.entry.buf.now pes_extension_bit }
    {
        self.buf[1] % 2 == 1
    }

    fn header_end(self) -> usize
        ensures { result ≡ payload_at self.entry.buf.now }
    {
        FIXED_HEADER_SIZE + self.buf[2] as usize
    }

    // Where a field ends, and the next begins: the entry of the flags with those of all later fields cleared.
    fn pts_dts_end(self) -> usize
        ensures { result ≡ escr_at self.entry.buf.now }
    {
        match self.pts_dts_flags() {
            0 => FIELD_ENDS[0x00] as usize,
            1 => FIELD_ENDS[0x40] as usize,
            2 => FIELD_ENDS[0x80] as usize,
            _ => FIELD_ENDS[0xC0] as usize,
        }
    }

    fn escr_end(self) -> usize
        ensures { result ≡ es_rate_at self.entry.buf.now }
    {
        field_end(self.buf[1] / 32 * 32)
    }

    fn es_rate_end(self) -> usize
        ensures { result ≡ trick_at self.entry.buf.now }
    {
        field_end(self.buf[1] / 16 * 16)
    }

    fn dsm_trick_mode_end(self) -> usize
        ensures { result ≡ copy_info_at self.entry.buf.now }
    {
        field_end(self.buf[1] / 8 * 8)
    }

    fn additional_copy_info_end(self) -> usize
        ensures { result ≡ crc_at self.entry.buf.now }
    {
        field_end(self.buf[1] / 4 * 4)
    }

    // Where the flagged fields end. Nearly every header of a broadcast announces a PTS, or a PTS and a DTS, and nothing else.
    fn pes_crc_end(self) -> usize
        ensures { result ≡ fields_end self.entry.buf.now }
    {
        match self.buf[1] {
            0x80 => FIELD_ENDS[0x80] as usize,
            0xC0 => FIELD_ENDS[0xC0] as usize,
            flags => field_end(flags),
        }
    }
}

// Each function that looks a flag byte up lays the table on the stack first, so what is usual goes its own way: docs/PERFORMANCE.md.
fn field_end(flags: u8) -> usize
    ensures { result ≡ fields_end (flag_byte flags) }
{
    entry(&FIELD_ENDS, flags)
}

// The entry of a flag byte.
#[tactic(auto, using(crate::proofs::Laws::fixed_laws))]
fn entry(ends: &[u8; 256], flags: u8) -> usize
    requires { FieldEnds ends.now }
    ensures { result ≡ fields_end (flag_byte flags) }
{
    ends[flags as usize] as usize
}

// Contents that are accepted: their flagged fields fit their header data, and their header data fits the slice.
#[derive(Clone, Copy)]
pub struct PesParsedContents<'a> {
    fixed: Fixed<'a>,
    pub ghost accepted: { answer done [] ≡ read_contents fixed.buf.now },
}

impl<'a> PesParsedContents<'a> {
    #[tactic(auto, using(crate::proofs::Laws::head_laws))]
    pub fn from_bytes(buf: &'a [u8]) -> Result<PesParsedContents<'a>, Refusal>
        ensures told { given no_values result ≡ read_contents buf.now }
        ensures kept { IfOk result (λ c. c.fixed.buf.now ≡ buf.now) }
    {
        if buf.len() < FIXED_HEADER_SIZE {
            return Err(Refusal::ShortContents);
        }
        if buf[0] / 64 != 2 {
            return Err(Refusal::BadCheckBits);
        }
        let fixed = Fixed { buf };
        let end = fixed.header_end();
        if buf.len() < end {
            return Err(Refusal::HeaderPastBuffer);
        }
        // room for every field there is
        if end >= FIELD_ENDS[0xFF] as usize {
            return Ok(PesParsedContents { fixed });
        }
        if end < fixed.pes_crc_end() {
            return Err(Refusal::FieldsPastHeader);
        }
        Ok(PesParsedContents { fixed })
    }

    pub fn pes_priority(self) -> u8
        ensures { answer done (number_values result) ≡ read_fixed pes_priority_bit 1 self.entry.fixed.buf.now }
    {
        self.fixed.buf[0] / 8 % 2
    }

    // Added: the original does not read it.
    pub fn pes_scrambling_control(self) -> u8
        ensures { answer done (number_values result) ≡ read_fixed scrambling_bit 2 self.entry.fixed.buf.now }
    {
        self.fixed.buf[0] / 16 % 4
    }

    // The eight flags as one byte, as the table has them. Added: the original keeps them to itself.
    pub fn flags(self) -> u8
        ensures { answer done (number_values result) ≡ read_fixed flags_bit 8 self.entry.fixed.buf.now }
    {
        self.fixed.buf[1]
    }

    // Added: the original keeps it to itself.
    pub fn pes_header_data_len(self) -> u8
        ensures { answer done (number_values result) ≡ read_fixed data_length_bit 8 self.entry.fixed.buf.now }
    {
        self.fixed.buf[2]
    }

    pub fn data_alignment_indicator(self) -> DataAlignment
        ensures { answer done (alignment_values result) ≡ read_fixed alignment_bit 1 self.entry.fixed.buf.now }
    {
        if self.fixed.buf[0] / 4 % 2 == 0 {
            return DataAlignment::NotAligned;
        }
        DataAlignment::Aligned
    }

    // The original's sense of the bit, which is not the standard's: docs/DIFFERENCES.md.
    pub fn copyright(self) -> CopyrightStatus
        ensures { answer done (status_values result) ≡ read_fixed copyright_bit 1 self.entry.fixed.buf.now }
    {
        if self.fixed.buf[0] / 2 % 2 == 0 {
            return CopyrightStatus::Protected;
        }
        CopyrightStatus::Undefined
    }

    pub fn original_or_copy(self) -> OriginalOrCopy
        ensures { answer done (originality_values result) ≡ read_fixed original_bit 1 self.entry.fixed.buf.now }
    {
        if self.fixed.buf[0] % 2 == 0 {
            return OriginalOrCopy::Copy;
        }
        OriginalOrCopy::Original
    }

    #[tactic(auto, using(crate::proofs::Laws::times_laws))]
    pub fn pts_dts(self) -> Result<PtsDts, Refusal>
        ensures { given pts_dts_values result ≡ read_pts_dts self.entry.fixed.buf.now }
    {
        match self.fixed.pts_dts_flags() {
            0 => Err(Refusal::FieldNotPresent),
            1 => Err(Refusal::PtsDtsFlagsInvalid),
            2 => Ok(PtsDts::PtsOnly(stamp_at(self.fixed.buf, FIXED_HEADER_SIZE))),
            _ => {
                let pts = stamp_at(self.fixed.buf, FIXED_HEADER_SIZE);
                let dts = stamp_at(self.fixed.buf, FIXED_HEADER_SIZE + TIMESTAMP_SIZE);
                Ok(PtsDts::Both { pts, dts })
            }
        }
    }

    // The elementary stream clock reference.
    #[tactic(auto, using(crate::proofs::Laws::escr_laws))]
    pub fn escr(self) -> Result<ClockRef, Refusal>
        ensures { given clock_values result ≡ read_escr self.entry.fixed.buf.now }
    {
        if !self.fixed.escr_flag() {
            return Err(Refusal::FieldNotPresent);
        }
        let buf = self.fixed.buf;
        let at = self.fixed.pts_dts_end();
        escr_of(
            buf[at],
            buf[at + 1],
            buf[at + 2],
            buf[at + 3],
            buf[at + 4],
            buf[at + 5],
        )
    }

    pub fn es_rate(self) -> Result<EsRate, Refusal>
        ensures { given rate_values result ≡ read_es_rate self.entry.fixed.buf.now }
    {
        self.es_rate_from(self.fixed.escr_end())
    }

    // `es_rate`, where its place is known. The readers after it have such a one too.
    #[tactic(auto, using(crate::proofs::Laws::rate_laws))]
    fn es_rate_from(self, at: usize) -> Result<EsRate, Refusal>
        requires { at ≡ es_rate_at self.fixed.buf.now }
        ensures { given rate_values result ≡ read_es_rate self.entry.fixed.buf.now }
    {
        if !self.fixed.esrate_flag() {
            return Err(Refusal::FieldNotPresent);
        }
        let buf = self.fixed.buf;
        Ok(EsRate(rate_of(buf[at], buf[at + 1], buf[at + 2])))
    }

    #[tactic(auto, using(crate::proofs::Laws::raw_laws))]
    pub fn dsm_trick_mode(self) -> Result<DsmTrickMode, Refusal>
        ensures { given trick_values result ≡ read_trick self.entry.fixed.buf.now }
    {
        Ok(trick_of(self.raw_trick_mode()?))
    }

    // The trick mode byte as it stands. Added: the original gives the control number where the table has data bits.
    pub fn raw_trick_mode(self) -> Result<u8, Refusal>
        ensures { given number_values result ≡ read_raw_trick self.entry.fixed.buf.now }
    {
        self.raw_trick_mode_from(self.fixed.es_rate_end())
    }

    #[tactic(auto, using(crate::proofs::Laws::raw_laws))]
    fn raw_trick_mode_from(self, at: usize) -> Result<u8, Refusal>
        requires { at ≡ trick_at self.fixed.buf.now }
        ensures { given number_values result ≡ read_raw_trick self.entry.fixed.buf.now }
    {
        if !self.fixed.dsm_trick_mode_flag() {
            return Err(Refusal::FieldNotPresent);
        }
        Ok(self.fixed.buf[at])
    }

    pub fn additional_copy_info(self) -> Result<u8, Refusal>
        ensures { given number_values result ≡ read_copy_info self.entry.fixed.buf.now }
    {
        self.additional_copy_info_from(self.fixed.dsm_trick_mode_end())
    }

    #[tactic(auto, using(crate::proofs::Laws::copy_laws))]
    fn additional_copy_info_from(self, at: usize) -> Result<u8, Refusal>
        requires { at ≡ copy_info_at self.fixed.buf.now }
        ensures { given number_values result ≡ read_copy_info self.entry.fixed.buf.now }
    {
        if !self.fixed.additional_copy_info_flag() {
            return Err(Refusal::FieldNotPresent);
        }
        copy_info_of(self.fixed.buf[at])
    }

    // The checksum of the packet before; nothing is checked by it.
    pub fn previous_pes_packet_crc(self) -> Result<u16, Refusal>
        ensures { given number_values result ≡ read_crc self.entry.fixed.buf.now }
    {
        self.previous_pes_packet_crc_from(self.fixed.additional_copy_info_end())
    }

    #[tactic(auto, using(crate::proofs::Laws::crc_laws))]
    fn previous_pes_packet_crc_from(self, at: usize) -> Result<u16, Refusal>
        requires { at ≡ crc_at self.fixed.buf.now }
        ensures { given number_values result ≡ read_crc self.entry.fixed.buf.now }
    {
        if !self.fixed.pes_crc_flag() {
            return Err(Refusal::FieldNotPresent);
        }
        let buf = self.fixed.buf;
        Ok(crc_of(buf[at], buf[at + 1]))
    }

    // Where the PES extension lies: from the end of the flagged fields to the end of the header data.
    pub fn pes_extension_at(self) -> Result<Extent, Refusal>
        ensures { given extent_values result ≡ read_pes_extension self.entry.fixed.buf.now }
    {
        self.pes_extension_from(self.fixed.pes_crc_end())
    }

    #[tactic(auto, using(crate::proofs::Laws::part_laws))]
    fn pes_extension_from(self, place: usize) -> Result<Extent, Refusal>
        requires { place ≡ fields_end self.fixed.buf.now }
        ensures { given extent_values result ≡ read_pes_extension self.entry.fixed.buf.now }
    {
        if !self.fixed.pes_extension_flag() {
            return Err(Refusal::FieldNotPresent);
        }
        let end = self.fixed.header_end();
        Ok(Extent {
            place,
            length: end - place,
        })
    }

    // Where the payload lies that came in the same packet as the header.
    #[tactic(auto, using(crate::proofs::Laws::part_laws))]
    pub fn payload_at(self) -> Extent
        ensures { answer done (extent_values result) ≡ read_parsed_payload self.entry.fixed.buf.now }
    {
        let place = self.fixed.header_end();
        Extent {
            place,
            length: self.fixed.buf.len() - place,
        }
    }

    // All places at once. Added: the original keeps them to itself.
    #[tactic(auto, using(crate::proofs::Laws::part_laws))]
    pub fn places(self) -> Places
        ensures { answer done (places_values result) ≡ read_places self.entry.fixed.buf.now }
    {
        placed(&FIELD_ENDS, self.fixed.buf[1], self.fixed.header_end())
    }

    // With all places, for whoever reads more than one field. Added.
    #[tactic(auto, using(crate::proofs::Laws::part_laws))]
    pub fn located(self) -> Located<'a>
        ensures { result.contents.fixed.buf.now ≡ self.entry.fixed.buf.now }
    {
        Located {
            contents: self,
            places: self.places(),
        }
    }
}

// Accepted contents with the places of their fields, which are looked up once.
#[derive(Clone, Copy)]
pub struct Located<'a> {
    contents: PesParsedContents<'a>,
    places: Places,
    ghost looked_up: { places_values places ≡ places_of contents.fixed.buf.now ++ payload_at contents.fixed.buf.now ∷ [] },
}

#[tactic(auto, using(crate::proofs::Laws::raw_laws), unfolding(crate::specs::Contents::places_of))]
impl<'a> Located<'a> {
    pub fn es_rate(self) -> Result<EsRate, Refusal>
        ensures { given rate_values result ≡ read_es_rate self.entry.contents.fixed.buf.now }
    {
        self.contents.es_rate_from(self.places.es_rate)
    }

    pub fn dsm_trick_mode(self) -> Result<DsmTrickMode, Refusal>
        ensures { given trick_values result ≡ read_trick self.entry.contents.fixed.buf.now }
    {
        let byte = self.raw_trick_mode()?;
        Ok(trick_of(byte))
    }

    // The trick mode byte as it stands.
    pub fn raw_trick_mode(self) -> Result<u8, Refusal>
        ensures { given number_values result ≡ read_raw_trick self.entry.contents.fixed.buf.now }
    {
        self.contents
            .raw_trick_mode_from(self.places.dsm_trick_mode)
    }

    pub fn additional_copy_info(self) -> Result<u8, Refusal>
        ensures { given number_values result ≡ read_copy_info self.entry.contents.fixed.buf.now }
    {
        self.contents
            .additional_copy_info_from(self.places.additional_copy_info)
    }

    pub fn previous_pes_packet_crc(self) -> Result<u16, Refusal>
        ensures { given number_values result ≡ read_crc self.entry.contents.fixed.buf.now }
    {
        self.contents
            .previous_pes_packet_crc_from(self.places.previous_pes_packet_crc)
    }

    pub fn pes_extension_at(self) -> Result<Extent, Refusal>
        ensures { given extent_values result ≡ read_pes_extension self.entry.contents.fixed.buf.now }
    {
        self.contents.pes_extension_from(self.places.pes_extension)
    }
}

// Whether the slice begins with contents that are accepted.
pub fn from_bytes(buf: &[u8]) -> Result<(), Refusal>
    ensures { given no_values result ≡ read_contents buf.now }
{
    PesParsedContents::from_bytes(buf)?;
    Ok(())
}

pub fn pes_priority(buf: &[u8]) -> Result<u8, Refusal>
    ensures { given number_values result ≡ read_fixed pes_priority_bit 1 buf.now }
{
    Ok(PesParsedContents::from_bytes(buf)?.pes_priority())
}

// Added: the original does not read it.
pub fn pes_scrambling_control(buf: &[u8]) -> Result<u8, Refusal>
    ensures { given number_values result ≡ read_fixed scrambling_bit 2 buf.now }
{
    Ok(PesParsedContents::from_bytes(buf)?.pes_scrambling_control())
}

// The eight flags as one byte, as the table has them. Added: the original keeps them to itself.
pub fn flags(buf: &[u8]) -> Result<u8, Refusal>
    ensures { given number_values result ≡ read_fixed flags_bit 8 buf.now }
{
    Ok(PesParsedContents::from_bytes(buf)?.flags())
}

// Added: the original keeps it to itself.
pub fn pes_header_data_len(buf: &[u8]) -> Result<u8, Refusal>
    ensures { given number_values result ≡ read_fixed data_length_bit 8 buf.now }
{
    Ok(PesParsedContents::from_bytes(buf)?.pes_header_data_len())
}

#[derive(Clone, Copy, Debug, PartialEq, Eq)]
pub enum DataAlignment {
    Aligned,
    NotAligned,
}

pub fn data_alignment_indicator(buf: &[u8]) -> Result<DataAlignment, Refusal>
    ensures { given alignment_values result ≡ read_fixed alignment_bit 1 buf.now }
{
    Ok(PesParsedContents::from_bytes(buf)?.data_alignment_indicator())
}

#[derive(Clone, Copy, Debug, PartialEq, Eq)]
pub enum CopyrightStatus {
    Protected,
    Undefined,
}

// The original's sense of the bit, which is not the standard's: docs/DIFFERENCES.md.
pub fn copyright(buf: &[u8]) -> Result<CopyrightStatus, Refusal>
    ensures { given status_values result ≡ read_fixed copyright_bit 1 buf.now }
{
    Ok(PesParsedContents::from_bytes(buf)?.copyright())
}

#[derive(Clone, Copy, Debug, PartialEq, Eq)]
pub enum OriginalOrCopy {
    Original,
    Copy,
}

pub fn original_or_copy(buf: &[u8]) -> Result<OriginalOrCopy, Refusal>
    ensures { given originality_values result ≡ read_fixed original_bit 1 buf.now }
{
    Ok(PesParsedContents::from_bytes(buf)?.original_or_copy())
}

// Each timestamp of the header, or its own refusal.
#[derive(Clone, Copy, Debug, PartialEq, Eq)]
pub enum PtsDts {
    PtsOnly(Result<Timestamp, Refusal>),
    Both {
        pts: Result<Timestamp, Refusal>,
        dts: Result<Timestamp, Refusal>,
    },
}

pub fn pts_dts(buf: &[u8]) -> Result<PtsDts, Refusal>
    ensures { given pts_dts_values result ≡ read_pts_dts buf.now }
{
    PesParsedContents::from_bytes(buf)?.pts_dts()
}

// The timestamp at a place; its prefix is not looked at.
fn stamp_at(buf: &[u8], at: usize) -> Result<Timestamp, Refusal>
    requires { at ≤ length buf.now }
    ensures { given timestamp_values result ≡ read_stamp (drop at buf.now) }
{
    Timestamp::from_bytes(&buf[at..])
}

// The elementary stream clock reference.
pub fn escr(buf: &[u8]) -> Result<ClockRef, Refusal>
    ensures { given clock_values result ≡ read_escr buf.now }
{
    PesParsedContents::from_bytes(buf)?.escr()
}

// The clock reference in the six bytes of an ESCR. 33 and 9 bits are always one.
#[tactic(auto, using(crate::proofs::Laws::byte_laws))]
fn escr_of(a0: u8, a1: u8, a2: u8, a3: u8, a4: u8, a5: u8) -> Result<ClockRef, Refusal>
    ensures { given clock_values result ≡ escr_answer (a0 ∷ a1 ∷ a2 ∷ a3 ∷ a4 ∷ a5 ∷ []) }
{
    let parts = escr_parts(a0, a1, a2, a3, a4, a5);
    ClockRef::from_parts(parts.base, parts.extension)
}

// The two numbers of a clock reference.
#[derive(Clone, Copy, Debug, PartialEq, Eq)]
pub struct ClockParts {
    pub base: u64,
    pub extension: u16,
}

// The two numbers in the six bytes of an ESCR; its markers are not looked at.
#[tactic(auto, using(crate::proofs::Laws::byte_laws))]
pub fn escr_parts(a0: u8, a1: u8, a2: u8, a3: u8, a4: u8, a5: u8) -> ClockParts
    ensures { (result.base ≡ escr_base (a0 ∷ a1 ∷ a2 ∷ a3 ∷ a4 ∷ a5 ∷ [])) × (result.extension ≡ escr_extension (a0 ∷ a1 ∷ a2 ∷ a3 ∷ a4 ∷ a5 ∷ [])) }
{
    let b0 = wide(a0);
    let b1 = wide(a1);
    let b2 = wide(a2);
    let b3 = wide(a3);
    let b4 = wide(a4);
    let b5 = wide(a5);
    let high = b0 / 8 % 8;
    let middle = b0 % 4 * BIT_13 + b1 * 32 + b2 / 8;
    let low = b2 % 4 * BIT_13 + b3 * 32 + b4 / 8;
    let extension = (b4 % 4 * 128 + b5 / 2) as u16;
    ClockParts {
        base: high * BIT_30 + middle * BIT_15 + low,
        extension,
    }
}

// The rate at which an elementary stream comes, in units of 50 bytes a second.
#[derive(Clone, Copy, Debug, PartialEq, Eq)]
pub struct EsRate(u32);

#[tactic(auto, using(crate::proofs::Laws::byte_laws))]
impl EsRate {
    pub const RATE_BYTES_PER_SECOND: u32 = 50;

    pub fn new(rate: u32) -> Result<EsRate, Refusal>
        ensures { given rate_values result ≡ make_rate rate }
    {
        if rate >= 1 << 22 {
            return Err(Refusal::OutOfRange);
        }
        Ok(EsRate(rate))
    }

    pub fn bytes_per_second(self) -> Result<u32, Refusal>
        ensures { given number_values result ≡ rate_bytes self.0 }
    {
        if self.0 >= 1 << 22 {
            return Err(Refusal::OutOfRange);
        }
        Ok(self.0 * EsRate::RATE_BYTES_PER_SECOND)
    }
}

impl From<EsRate> for u32 {
    fn from(rate: EsRate) -> u32
        ensures { result ≡ rate.0 }
    {
        rate.0
    }
}

pub fn es_rate(buf: &[u8]) -> Result<EsRate, Refusal>
    ensures { given rate_values result ≡ read_es_rate buf.now }
{
    PesParsedContents::from_bytes(buf)?.es_rate()
}

// The rate in the three bytes of an ES_rate; its markers are not looked at.
#[tactic(auto, using(crate::proofs::Laws::byte_laws))]
pub fn rate_of(a0: u8, a1: u8, a2: u8) -> u32
    ensures { result ≡ rate_of (a0 ∷ a1 ∷ a2 ∷ []) }
{
    let b0 = wide(a0);
    let b1 = wide(a1);
    let b2 = wide(a2);
    (b0 % 128 * BIT_15 + b1 * 128 + b2 / 2) as u32
}

#[derive(Clone, Copy, Debug, PartialEq, Eq)]
pub enum FrequencyTruncationCoefficientSelection {
    DCNonZero,
    FirstThreeNonZero,
    FirstSixNonZero,
    AllMaybeNonZero,
}

#[derive(Clone, Copy, Debug, PartialEq, Eq)]
pub enum DsmTrickMode {
    FastForward {
        field_id: u8,
        intra_slice_refresh: bool,
        frequency_truncation: FrequencyTruncationCoefficientSelection,
    },
    SlowMotion {
        rep_cntrl: u8,
    },
    FreezeFrame {
        field_id: u8,
        reserved: u8,
    },
    FastReverse {
        field_id: u8,
        intra_slice_refresh: bool,
        frequency_truncation: FrequencyTruncationCoefficientSelection,
    },
    SlowReverse {
        rep_cntrl: u8,
    },
    Reserved {
        reserved: u8,
    },
}

pub fn dsm_trick_mode(buf: &[u8]) -> Result<DsmTrickMode, Refusal>
    ensures { given trick_values result ≡ read_trick buf.now }
{
    PesParsedContents::from_bytes(buf)?.dsm_trick_mode()
}

// The trick mode in its byte.
#[tactic(auto, using(crate::proofs::Laws::trick_laws))]
pub fn trick_of(byte: u8) -> DsmTrickMode
    ensures { trick_values result ≡ trick_byte byte }
{
    let control = byte / 32;
    let field_id = byte / 8 % 4;
    let intra_slice_refresh = byte / 4 % 2 == 1;
    match control {
        0 => DsmTrickMode::FastForward {
            field_id,
            intra_slice_refresh,
            frequency_truncation: truncation_of(byte),
        },
        1 => DsmTrickMode::SlowMotion { rep_cntrl: control },
        2 => DsmTrickMode::FreezeFrame {
            field_id,
            reserved: byte % 8,
        },
        3 => DsmTrickMode::FastReverse {
            field_id,
            intra_slice_refresh,
            frequency_truncation: truncation_of(byte),
        },
        4 => DsmTrickMode::SlowReverse { rep_cntrl: control },
        _ => DsmTrickMode::Reserved { reserved: control },
    }
}

#[tactic(auto, using(crate::proofs::Laws::trick_laws))]
fn truncation_of(byte: u8) -> FrequencyTruncationCoefficientSelection
    ensures { truncation result ≡ truncation_bits byte }
{
    match byte % 4 {
        0 => FrequencyTruncationCoefficientSelection::DCNonZero,
        1 => FrequencyTruncationCoefficientSelection::FirstThreeNonZero,
        2 => FrequencyTruncationCoefficientSelection::FirstSixNonZero,
        _ => FrequencyTruncationCoefficientSelection::AllMaybeNonZero,
    }
}

// The trick mode byte as it stands. Added: the original gives the control number where the table has data bits.
pub fn raw_trick_mode(buf: &[u8]) -> Result<u8, Refusal>
    ensures { given number_values result ≡ read_raw_trick buf.now }
{
    PesParsedContents::from_bytes(buf)?.raw_trick_mode()
}

pub fn additional_copy_info(buf: &[u8]) -> Result<u8, Refusal>
    ensures { given number_values result ≡ read_copy_info buf.now }
{
    PesParsedContents::from_bytes(buf)?.additional_copy_info()
}

// The additional copy info in its byte, or that its marker is clear.
#[tactic(auto, using(crate::proofs::Laws::byte_laws))]
fn copy_info_of(byte: u8) -> Result<u8, Refusal>
    ensures { given number_values result ≡ copy_info_of (byte ∷ []) }
{
    if byte / 128 == 0 {
        return Err(Refusal::MarkerBitNotSet { bit_number: 0 });
    }
    Ok(byte % 128)
}

// The checksum of the packet before; nothing is checked by it.
pub fn previous_pes_packet_crc(buf: &[u8]) -> Result<u16, Refusal>
    ensures { given number_values result ≡ read_crc buf.now }
{
    PesParsedContents::from_bytes(buf)?.previous_pes_packet_crc()
}

// The checksum in its two bytes.
#[tactic(auto, using(crate::proofs::Laws::byte_laws))]
pub fn crc_of(a0: u8, a1: u8) -> u16
    ensures { result ≡ field (a0 ∷ a1 ∷ []) 0 16 }
{
    (wide(a0) * 256 + wide(a1)) as u16
}

// Where the PES extension lies: from the end of the flagged fields to the end of the header data.
pub fn pes_extension_at(buf: &[u8]) -> Result<Extent, Refusal>
    ensures { given extent_values result ≡ read_pes_extension buf.now }
{
    PesParsedContents::from_bytes(buf)?.pes_extension_at()
}

// The PES extension; what it holds is not read.
#[tactic(auto, using(crate::proofs::Laws::part_laws))]
pub fn pes_extension(buf: &[u8]) -> &[u8]
    ensures { result.now ≡ part_of (read_pes_extension buf.now) buf.now }
{
    let Ok(extension) = pes_extension_at(buf) else {
        return &buf[0..0];
    };
    extension.of(buf)
}

// Where the payload lies that came in the same packet as the header.
pub fn payload_at(buf: &[u8]) -> Result<Extent, Refusal>
    ensures { given extent_values result ≡ read_parsed_payload buf.now }
{
    Ok(PesParsedContents::from_bytes(buf)?.payload_at())
}

// The payload that came in the same packet as the header.
#[tactic(auto, using(crate::proofs::Laws::part_laws))]
pub fn payload(buf: &[u8]) -> &[u8]
    ensures { result.now ≡ part_of (read_parsed_payload buf.now) buf.now }
{
    let Ok(payload) = payload_at(buf) else {
        return &buf[0..0];
    };
    payload.of(buf)
}

// All places at once. Added: the original keeps them to itself.
pub fn places(buf: &[u8]) -> Result<Places, Refusal>
    ensures { given places_values result ≡ read_places buf.now }
{
    Ok(PesParsedContents::from_bytes(buf)?.places())
}

// Six entries of one table, which is laid on the stack once.
#[tactic(auto, using(crate::proofs::Laws::fixed_laws))]
fn placed(ends: &[u8; 256], flags: u8, payload: usize) -> Places
    requires { FieldEnds ends.now }
    ensures { places_values result ≡ places_of (flag_byte flags) ++ payload ∷ [] }
{
    Places {
        escr: entry(ends, flags / 64 * 64),
        es_rate: entry(ends, flags / 32 * 32),
        dsm_trick_mode: entry(ends, flags / 16 * 16),
        additional_copy_info: entry(ends, flags / 8 * 8),
        previous_pes_packet_crc: entry(ends, flags / 4 * 4),
        pes_extension: entry(ends, flags),
        payload,
    }
}
