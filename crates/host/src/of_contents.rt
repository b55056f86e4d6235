// What follows the head of a PES packet that carries parsed contents.
ghost use Rattle.std.specs.Prelude.{◌≡◌, List, [], ◌∷◌, ℕ};
ghost use Rattle.bits.specs.Refused.{given, number_values};
ghost use Rattle.timestamp.specs.Stamp.{timestamp_values};
ghost use Rattle.contents.specs.Contents.{scrambling_bit, pes_priority_bit, alignment_bit, copyright_bit, original_bit, flags_bit, data_length_bit};
ghost use Rattle.contents.specs.Contents.{inner, read_contents, read_fixed, read_pts_dts, read_escr, read_es_rate, read_copy_info, read_crc, read_pes_extension};
ghost use Rattle.contents.specs.Contents.{read_parsed_payload, make_rate, rate_bytes};
ghost use Rattle.contents.specs.Trick.{read_trick, read_raw_trick};
ghost use Rattle.contents.specs.Given.{alignment_values, status_values, originality_values, pts_dts_values, rate_values, truncation, trick_values};
ghost use Rattle.host.specs.Reports.{Reports};

use crate::told::{Told, report, report_five, report_four, report_one, report_two};
use bits::Refusal;
use contents::{
    CopyrightStatus, DataAlignment, DsmTrickMode, EsRate, FrequencyTruncationCoefficientSelection,
    OriginalOrCopy, PtsDts,
};
use timestamp::Timestamp;

// contents::from_bytes
pub fn cmv_pes_contents_from_bytes(buf: &[u8]) -> u32
    ensures { Reports (read_contents buf.now) result [] [] }
{
    report(contents::from_bytes(buf))
}

// contents::pes_priority
pub fn cmv_pes_contents_pes_priority(buf: &[u8], value: &mut u64) -> u32
    ensures { Reports (read_fixed pes_priority_bit 1 buf.now) result (value.old ∷ []) (value.new ∷ []) }
{
    report_one(contents::pes_priority(buf), value)
}

// contents::pes_scrambling_control
pub fn cmv_pes_contents_pes_scrambling_control(buf: &[u8], value: &mut u64) -> u32
    ensures { Reports (read_fixed scrambling_bit 2 buf.now) result (value.old ∷ []) (value.new ∷ []) }
{
    report_one(contents::pes_scrambling_control(buf), value)
}

// contents::flags
pub fn cmv_pes_contents_flags(buf: &[u8], value: &mut u64) -> u32
    ensures { Reports (read_fixed flags_bit 8 buf.now) result (value.old ∷ []) (value.new ∷ []) }
{
    report_one(contents::flags(buf), value)
}

// contents::pes_header_data_len
pub fn cmv_pes_contents_pes_header_data_len(buf: &[u8], value: &mut u64) -> u32
    ensures { Reports (read_fixed data_length_bit 8 buf.now) result (value.old ∷ []) (value.new ∷ []) }
{
    report_one(contents::pes_header_data_len(buf), value)
}

impl Told<1> for DataAlignment {
    ghost values = { alignment_values };

    fn told(self) -> [u64; 1] {
        match self {
            DataAlignment::Aligned => [1],
            DataAlignment::NotAligned => [0],
        }
    }
}

// contents::data_alignment_indicator: 1 where aligned
pub fn cmv_pes_contents_data_alignment_indicator(buf: &[u8], value: &mut u64) -> u32
    ensures { Reports (read_fixed alignment_bit 1 buf.now) result (value.old ∷ []) (value.new ∷ []) }
{
    report_one(contents::data_alignment_indicator(buf), value)
}

impl Told<1> for CopyrightStatus {
    ghost values = { status_values };

    fn told(self) -> [u64; 1] {
        match self {
            CopyrightStatus::Undefined => [1],
            CopyrightStatus::Protected => [0],
        }
    }
}

// contents::copyright: 1 where undefined
pub fn cmv_pes_contents_copyright(buf: &[u8], value: &mut u64) -> u32
    ensures { Reports (read_fixed copyright_bit 1 buf.now) result (value.old ∷ []) (value.new ∷ []) }
{
    report_one(contents::copyright(buf), value)
}

impl Told<1> for OriginalOrCopy {
    ghost values = { originality_values };

    fn told(self) -> [u64; 1] {
        match self {
            OriginalOrCopy::Original => [1],
            OriginalOrCopy::Copy => [0],
        }
    }
}

// contents::original_or_copy: 1 where original
pub fn cmv_pes_contents_original_or_copy(buf: &[u8], value: &mut u64) -> u32
    ensures { Reports (read_fixed original_bit 1 buf.now) result (value.old ∷ []) (value.new ∷ []) }
{
    report_one(contents::original_or_copy(buf), value)
}

// A timestamp within an answer: its number, and its value or the first number named with the refusal.
pub fn inner(r: Result<Timestamp, Refusal>) -> [u64; 2]
    ensures { result ≡ inner (given timestamp_values r) }
{
    match r {
        Ok(t) => [0, t.value()],
        Err(Refusal::MarkerBitNotSet { bit_number }) => [12, bit_number as u64],
        Err(Refusal::IncorrectPrefixBits { expected, .. }) => [13, expected as u64],
        Err(e) => [e.number() as u64, 0],
    }
}

impl Told<5> for PtsDts {
    ghost values = { pts_dts_values };

    fn told(self) -> [u64; 5] {
        match self {
            PtsDts::PtsOnly(pts) => {
                let [number, value] = inner(pts);
                [1, number, value, 0, 0]
            }
            PtsDts::Both { pts, dts } => {
                let [number, value] = inner(pts);
                let [number2, value2] = inner(dts);
                [2, number, value, number2, value2]
            }
        }
    }
}

// contents::pts_dts: kind 1 a PTS, kind 2 a PTS and a DTS
pub fn cmv_pes_contents_pts_dts(
    buf: &[u8],
    kind: &mut u64,
    ptsnumber: &mut u64,
    pts: &mut u64,
    dtsnumber: &mut u64,
    dts: &mut u64,
) -> u32
    ensures { Reports (read_pts_dts buf.now) result
        (kind.old ∷ ptsnumber.old ∷ pts.old ∷ dtsnumber.old ∷ dts.old ∷ [])
        (kind.new ∷ ptsnumber.new ∷ pts.new ∷ dtsnumber.new ∷ dts.new ∷ []) }
{
    report_five(contents::pts_dts(buf), kind, ptsnumber, pts, dtsnumber, dts)
}

// contents::escr
pub fn cmv_pes_contents_escr(buf: &[u8], base: &mut u64, extension: &mut u64) -> u32
    ensures { Reports (read_escr buf.now) result (base.old ∷ extension.old ∷ [])
        (base.new ∷ extension.new ∷ []) }
{
    report_two(contents::escr(buf), base, extension)
}

impl Told<1> for EsRate {
    ghost values = { rate_values };

    fn told(self) -> [u64; 1] {
        [u32::from(self) as u64]
    }
}

// contents::es_rate
pub fn cmv_pes_contents_es_rate(buf: &[u8], value: &mut u64) -> u32
    ensures { Reports (read_es_rate buf.now) result (value.old ∷ []) (value.new ∷ []) }
{
    report_one(contents::es_rate(buf), value)
}

fn truncated(x: FrequencyTruncationCoefficientSelection) -> u64
    ensures { result ≡ truncation x }
{
    match x {
        FrequencyTruncationCoefficientSelection::DCNonZero => 0,
        FrequencyTruncationCoefficientSelection::FirstThreeNonZero => 1,
        FrequencyTruncationCoefficientSelection::FirstSixNonZero => 2,
        FrequencyTruncationCoefficientSelection::AllMaybeNonZero => 3,
    }
}

// A kind, and up to three numbers given with it.
impl Told<4> for DsmTrickMode {
    ghost values = { trick_values };

    fn told(self) -> [u64; 4] {
        match self {
            DsmTrickMode::FastForward {
                field_id,
                intra_slice_refresh,
                frequency_truncation,
            } => [
                0,
                field_id as u64,
                intra_slice_refresh as u64,
                truncated(frequency_truncation),
            ],
            DsmTrickMode::SlowMotion { rep_cntrl } => [1, rep_cntrl as u64, 0, 0],
            DsmTrickMode::FreezeFrame { field_id, reserved } => {
                [2, field_id as u64, reserved as u64, 0]
            }
            DsmTrickMode::FastReverse {
                field_id,
                intra_slice_refresh,
                frequency_truncation,
            } => [
                3,
                field_id as u64,
                intra_slice_refresh as u64,
                truncated(frequency_truncation),
            ],
            DsmTrickMode::SlowReverse { rep_cntrl } => [4, rep_cntrl as u64, 0, 0],
            DsmTrickMode::Reserved { reserved } => [5, reserved as u64, 0, 0],
        }
    }
}

// contents::dsm_trick_mode: kind 0 fast forward and kind 3 fast reverse, each with field id, intra slice refresh and frequency truncation
// (which coefficients may be non-zero: 0 DC only, 1 the first three, 2 the first six, 3 all); kind 2 freeze frame, with field id and
// reserved bits; kind 1 slow motion, kind 4 slow reverse and kind 5 a reserved mode, each with the control number as the original gives
// it, and not with the five bits after it, which cmv_pes_contents_raw_trick_mode has. A number that a kind does not have is 0.
pub fn cmv_pes_contents_dsm_trick_mode(
    buf: &[u8],
    kind: &mut u64,
    first: &mut u64,
    second: &mut u64,
    third: &mut u64,
) -> u32
    ensures { Reports (read_trick buf.now) result
        (kind.old ∷ first.old ∷ second.old ∷ third.old ∷ [])
        (kind.new ∷ first.new ∷ second.new ∷ third.new ∷ []) }
{
    report_four(contents::dsm_trick_mode(buf), kind, first, second, third)
}

// contents::raw_trick_mode
pub fn cmv_pes_contents_raw_trick_mode(buf: &[u8], value: &mut u64) -> u32
    ensures { Reports (read_raw_trick buf.now) result (value.old ∷ []) (value.new ∷ []) }
{
    report_one(contents::raw_trick_mode(buf), value)
}

// contents::additional_copy_info
pub fn cmv_pes_contents_additional_copy_info(buf: &[u8], value: &mut u64) -> u32
    ensures { Reports (read_copy_info buf.now) result (value.old ∷ []) (value.new ∷ []) }
{
    report_one(contents::additional_copy_info(buf), value)
}

// contents::previous_pes_packet_crc
pub fn cmv_pes_contents_previous_pes_packet_crc(buf: &[u8], value: &mut u64) -> u32
    ensures { Reports (read_crc buf.now) result (value.old ∷ []) (value.new ∷ []) }
{
    report_one(contents::previous_pes_packet_crc(buf), value)
}

// contents::pes_extension_at: where what pes_extension gives lies
pub fn cmv_pes_contents_pes_extension(buf: &[u8], place: &mut u64, length: &mut u64) -> u32
    ensures { Reports (read_pes_extension buf.now) result (place.old ∷ length.old ∷ [])
        (place.new ∷ length.new ∷ []) }
{
    report_two(contents::pes_extension_at(buf), place, length)
}

// contents::payload_at: where what payload gives lies
pub fn cmv_pes_contents_payload(buf: &[u8], place: &mut u64, length: &mut u64) -> u32
    ensures { Reports (read_parsed_payload buf.now) result (place.old ∷ length.old ∷ [])
        (place.new ∷ length.new ∷ []) }
{
    report_two(contents::payload_at(buf), place, length)
}

// EsRate::new, and its number
pub fn cmv_es_rate_new(rate: u32, value: &mut u64) -> u32
    ensures { Reports (make_rate rate) result (value.old ∷ []) (value.new ∷ []) }
{
    report_one(EsRate::new(rate), value)
}

fn bytes_per_second(rate: u32) -> Result<u32, Refusal>
    ensures { given number_values result ≡ rate_bytes rate }
{
    EsRate::new(rate)?.bytes_per_second()
}

// EsRate::bytes_per_second, of a number that is a rate
pub fn cmv_es_rate_bytes_per_second(rate: u32, value: &mut u64) -> u32
    ensures { Reports (rate_bytes rate) result (value.old ∷ []) (value.new ∷ []) }
{
    report_one(bytes_per_second(rate), value)
}
