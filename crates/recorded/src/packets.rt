// Packets: codes 20 to 2a.
use crate::answers::Out;
use crate::numbers::byte;
use host::of_packet;

pub fn word(code: u8, args: &[u8], Out { a, b, .. }: &mut Out) -> Option<u32> {
    Some(match code {
        0x20 => of_packet::cmv_packet_is_sync_byte(byte(args)?, a),
        0x21 => of_packet::cmv_packet_try_new(args),
        0x22 => of_packet::cmv_packet_transport_error_indicator(args, a),
        0x23 => of_packet::cmv_packet_payload_unit_start_indicator(args, a),
        0x24 => of_packet::cmv_packet_transport_priority(args, a),
        0x25 => of_packet::cmv_packet_pid(args, a),
        0x26 => of_packet::cmv_packet_transport_scrambling_control(args, a, b),
        0x27 => of_packet::cmv_packet_adaptation_control(args, a, b),
        0x28 => of_packet::cmv_packet_continuity_counter(args, a),
        0x29 => of_packet::cmv_packet_adaptation_field(args, a, b),
        0x2a => of_packet::cmv_packet_payload(args, a, b),
        _ => return None,
    })
}
