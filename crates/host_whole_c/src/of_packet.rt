// The exports of host_whole::of_packet.
ghost use Rattle.host.specs.Reports.{Reports};
ghost use Rattle.host_whole.specs.Whole.{packet_fields};

#[unsafe(no_mangle)]
pub extern "C" fn cmv_packet_fields(packet: &[u8], fields: &mut [u64; 15]) -> u32
    ensures { Reports (packet_fields packet.now) result fields.old fields.new }
{
    host_whole::of_packet::cmv_packet_fields(packet, fields)
}
