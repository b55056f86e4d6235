// The adaptation field and its extension, each without its length byte.
ghost use Rattle.std.specs.Prelude.{[], ◌∷◌};
ghost use Rattle.adaptation.specs.Adaptation.{read_flag, read_pcr, read_opcr, read_splice_countdown};
ghost use Rattle.adaptation.specs.Adaptation.{read_private_data, read_extension};
ghost use Rattle.adaptation.specs.Extension.{ltw_values, splice_values, read_ltw, read_rate, read_splice};
ghost use Rattle.host.specs.Reports.{Reports};

use crate::told::{Told, report_one, report_two};
use adaptation::extension;
use adaptation::extension::SeamlessSplice;

// adaptation::discontinuity_indicator
pub fn cmv_adaptation_field_discontinuity_indicator(buf: &[u8], value: &mut u64) -> u32
    ensures { Reports (read_flag 0 buf.now) result (value.old ∷ []) (value.new ∷ []) }
{
    report_one(adaptation::discontinuity_indicator(buf), value)
}

// adaptation::random_access_indicator
pub fn cmv_adaptation_field_random_access_indicator(buf: &[u8], value: &mut u64) -> u32
    ensures { Reports (read_flag 1 buf.now) result (value.old ∷ []) (value.new ∷ []) }
{
    report_one(adaptation::random_access_indicator(buf), value)
}

// adaptation::elementary_stream_priority_indicator
pub fn cmv_adaptation_field_elementary_stream_priority_indicator(buf: &[u8], value: &mut u64) -> u32
    ensures { Reports (read_flag 2 buf.now) result (value.old ∷ []) (value.new ∷ []) }
{
    report_one(adaptation::elementary_stream_priority_indicator(buf), value)
}

// adaptation::pcr
pub fn cmv_adaptation_field_pcr(buf: &[u8], base: &mut u64, extension: &mut u64) -> u32
    ensures { Reports (read_pcr buf.now) result (base.old ∷ extension.old ∷ [])
        (base.new ∷ extension.new ∷ []) }
{
    report_two(adaptation::pcr(buf), base, extension)
}

// adaptation::opcr
pub fn cmv_adaptation_field_opcr(buf: &[u8], base: &mut u64, extension: &mut u64) -> u32
    ensures { Reports (read_opcr buf.now) result (base.old ∷ extension.old ∷ [])
        (base.new ∷ extension.new ∷ []) }
{
    report_two(adaptation::opcr(buf), base, extension)
}

// adaptation::splice_countdown
pub fn cmv_adaptation_field_splice_countdown(buf: &[u8], value: &mut u64) -> u32
    ensures { Reports (read_splice_countdown buf.now) result (value.old ∷ []) (value.new ∷ []) }
{
    report_one(adaptation::splice_countdown(buf), value)
}

// adaptation::transport_private_data_at: where what transport_private_data gives lies
pub fn cmv_adaptation_field_transport_private_data(
    buf: &[u8],
    place: &mut u64,
    length: &mut u64,
) -> u32
    ensures { Reports (read_private_data buf.now) result (place.old ∷ length.old ∷ [])
        (place.new ∷ length.new ∷ []) }
{
    report_two(adaptation::transport_private_data_at(buf), place, length)
}

// adaptation::adaptation_field_extension_at: where what adaptation_field_extension gives lies
pub fn cmv_adaptation_field_extension(buf: &[u8], place: &mut u64, length: &mut u64) -> u32
    ensures { Reports (read_extension buf.now) result (place.old ∷ length.old ∷ [])
        (place.new ∷ length.new ∷ []) }
{
    report_two(
        adaptation::adaptation_field_extension_at(buf),
        place,
        length,
    )
}

// Kind 1 with the offset where it is valid, else 0 and 0.
impl Told<2> for Option<u16> {
    ghost values = { ltw_values };

    fn told(self) -> [u64; 2] {
        match self {
            Some(offset) => [1, offset as u64],
            None => [0, 0],
        }
    }
}

// adaptation::extension::ltw_offset: kind 1 where it is valid
pub fn cmv_adaptation_extension_ltw_offset(buf: &[u8], kind: &mut u64, offset: &mut u64) -> u32
    ensures { Reports (read_ltw buf.now) result (kind.old ∷ offset.old ∷ [])
        (kind.new ∷ offset.new ∷ []) }
{
    report_two(extension::ltw_offset(buf), kind, offset)
}

// adaptation::extension::piecewise_rate
pub fn cmv_adaptation_extension_piecewise_rate(buf: &[u8], value: &mut u64) -> u32
    ensures { Reports (read_rate buf.now) result (value.old ∷ []) (value.new ∷ []) }
{
    report_one(extension::piecewise_rate(buf), value)
}

impl Told<2> for SeamlessSplice {
    ghost values = { splice_values };

    fn told(self) -> [u64; 2] {
        [self.splice_type as u64, self.dts_next_au.value()]
    }
}

// adaptation::extension::seamless_splice
pub fn cmv_adaptation_extension_seamless_splice(buf: &[u8], splice: &mut u64, dts: &mut u64) -> u32
    ensures { Reports (read_splice buf.now) result (splice.old ∷ dts.old ∷ [])
        (splice.new ∷ dts.new ∷ []) }
{
    report_two(extension::seamless_splice(buf), splice, dts)
}
