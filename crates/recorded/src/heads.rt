// The head of a PES packet: codes 40 to 43.
use crate::answers::Out;
use host::of_pes;

pub fn word(code: u8, args: &[u8], Out { a, b, c, .. }: &mut Out) -> Option<u32> {
    Some(match code {
        0x40 => of_pes::cmv_pes_header_from_bytes(args),
        0x41 => of_pes::cmv_pes_header_stream_id(args, a, b),
        0x42 => of_pes::cmv_pes_header_pes_packet_length(args, a, b),
        0x43 => of_pes::cmv_pes_header_contents(args, a, b, c),
        _ => return None,
    })
}
