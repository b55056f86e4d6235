// What follows the head of a PES packet: codes 50 to 62.
use crate::answers::Out;
use crate::numbers::int;
use host::of_contents;

pub fn word(code: u8, args: &[u8], Out { a, b, c, d, e }: &mut Out) -> Option<u32> {
    Some(match code {
        0x50 => of_contents::cmv_pes_contents_from_bytes(args),
        0x51 => of_contents::cmv_pes_contents_pes_priority(args, a),
        0x52 => of_contents::cmv_pes_contents_pes_scrambling_control(args, a),
        0x53 => of_contents::cmv_pes_contents_flags(args, a),
        0x54 => of_contents::cmv_pes_contents_pes_header_data_len(args, a),
        0x55 => of_contents::cmv_pes_contents_data_alignment_indicator(args, a),
        0x56 => of_contents::cmv_pes_contents_copyright(args, a),
        0x57 => of_contents::cmv_pes_contents_original_or_copy(args, a),
        0x58 => of_contents::cmv_pes_contents_pts_dts(args, a, b, c, d, e),
        0x59 => of_contents::cmv_pes_contents_escr(args, a, b),
        0x5a => of_contents::cmv_pes_contents_es_rate(args, a),
        0x5b => of_contents::cmv_pes_contents_dsm_trick_mode(args, a, b, c, d),
        0x5c => of_contents::cmv_pes_contents_raw_trick_mode(args, a),
        0x5d => of_contents::cmv_pes_contents_additional_copy_info(args, a),
        0x5e => of_contents::cmv_pes_contents_previous_pes_packet_crc(args, a),
        0x5f => of_contents::cmv_pes_contents_pes_extension(args, a, b),
        0x60 => of_contents::cmv_pes_contents_payload(args, a, b),
        0x61 => of_contents::cmv_es_rate_new(int(args)?, a),
        0x62 => of_contents::cmv_es_rate_bytes_per_second(int(args)?, a),
        _ => return None,
    })
}
