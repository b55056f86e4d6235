// Adaptation fields and their extension: codes 30 to 3a.
use crate::answers::Out;
use host::of_adaptation;

pub fn word(code: u8, args: &[u8], Out { a, b, .. }: &mut Out) -> Option<u32> {
    Some(match code {
        0x30 => of_adaptation::cmv_adaptation_field_discontinuity_indicator(args, a),
        0x31 => of_adaptation::cmv_adaptation_field_random_access_indicator(args, a),
        0x32 => of_adaptation::cmv_adaptation_field_elementary_stream_priority_indicator(args, a),
        0x33 => of_adaptation::cmv_adaptation_field_pcr(args, a, b),
        0x34 => of_adaptation::cmv_adaptation_field_opcr(args, a, b),
        0x35 => of_adaptation::cmv_adaptation_field_splice_countdown(args, a),
        0x36 => of_adaptation::cmv_adaptation_field_transport_private_data(args, a, b),
        0x37 => of_adaptation::cmv_adaptation_field_extension(args, a, b),
        0x38 => of_adaptation::cmv_adaptation_extension_ltw_offset(args, a, b),
        0x39 => of_adaptation::cmv_adaptation_extension_piecewise_rate(args, a),
        0x3a => of_adaptation::cmv_adaptation_extension_seamless_splice(args, a, b),
        _ => return None,
    })
}
