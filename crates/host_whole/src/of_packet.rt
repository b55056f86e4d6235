// Packets at one call.
#![tactic(auto, using(crate::proofs::Laws::whole_laws), unfolding(crate::specs::Whole::packet_fields))]

ghost use Rattle.std.specs.Prelude.{◌≡◌};
ghost use Rattle.bits.specs.Refused.{given, no_values};
ghost use Rattle.packet.specs.Packet.{tried};
ghost use Rattle.host.specs.Reports.{Reports, outs};
ghost use Rattle.host_whole.specs.Whole.{packet_fields};

use crate::rows::{put, put_row};
use bits::Refusal;
use host::told::report;
use packet::Packet;

fn put_packet(packet: &[u8], fields: &mut [u64; 15]) -> Result<(), Refusal>
    ensures told { given no_values result ≡ tried packet.now }
    ensures left { fields.new ≡ outs (packet_fields packet.now) fields.old }
{
    let packet = Packet::try_new(packet)?;
    put(packet.transport_error_indicator(), 0, fields);
    put(packet.payload_unit_start_indicator(), 1, fields);
    put(packet.transport_priority(), 2, fields);
    put(packet.pid(), 3, fields);
    put(packet.continuity_counter(), 4, fields);
    put(packet.transport_scrambling_control(), 5, fields);
    put(packet.adaptation_control(), 7, fields);
    put_row(packet.adaptation_field_at(), 9, fields);
    put_row(packet.payload_at(), 12, fields);
    Ok(())
}

// error, start, priority, PID, counter, scrambled, scheme, whether an adaptation field and a payload are there by the control bits; then
// word, place and length of the adaptation field, and of the payload
pub fn cmv_packet_fields(packet: &[u8], fields: &mut [u64; 15]) -> u32
    ensures { Reports (packet_fields packet.now) result fields.old fields.new }
{
    report(put_packet(packet, fields))
}
