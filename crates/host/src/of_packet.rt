// Packets.
ghost use Rattle.std.specs.Prelude.{[], ◌∷◌, eqb};
ghost use Rattle.bits.specs.Answer.{answer, truth};
ghost use Rattle.bits.specs.Numbers.{done};
ghost use Rattle.packet.specs.Packet.{tried, read_flag, error_bit, start_bit, priority_bit, read_pid, read_counter};
ghost use Rattle.packet.specs.Packet.{read_adaptation, read_payload};
ghost use Rattle.host.specs.Reports.{Reports};
ghost use Rattle.host.specs.Packets.{read_scrambling, read_control};

use crate::told::{DONE, report, report_one, report_two};

// packet::is_sync_byte
pub fn cmv_packet_is_sync_byte(b: u8, is: &mut u64) -> u32
    ensures { Reports (answer done (truth (eqb b 0x47) ∷ [])) result (is.old ∷ []) (is.new ∷ []) }
{
    *is = packet::is_sync_byte(b) as u64;
    DONE
}

// packet::try_new
pub fn cmv_packet_try_new(buf: &[u8]) -> u32
    ensures { Reports (tried buf.now) result [] [] }
{
    report(packet::try_new(buf))
}

// packet::transport_error_indicator
pub fn cmv_packet_transport_error_indicator(buf: &[u8], value: &mut u64) -> u32
    ensures { Reports (read_flag error_bit buf.now) result (value.old ∷ []) (value.new ∷ []) }
{
    report_one(packet::transport_error_indicator(buf), value)
}

// packet::payload_unit_start_indicator
pub fn cmv_packet_payload_unit_start_indicator(buf: &[u8], value: &mut u64) -> u32
    ensures { Reports (read_flag start_bit buf.now) result (value.old ∷ []) (value.new ∷ []) }
{
    report_one(packet::payload_unit_start_indicator(buf), value)
}

// packet::transport_priority
pub fn cmv_packet_transport_priority(buf: &[u8], value: &mut u64) -> u32
    ensures { Reports (read_flag priority_bit buf.now) result (value.old ∷ []) (value.new ∷ []) }
{
    report_one(packet::transport_priority(buf), value)
}

// packet::pid
pub fn cmv_packet_pid(buf: &[u8], value: &mut u64) -> u32
    ensures { Reports (read_pid buf.now) result (value.old ∷ []) (value.new ∷ []) }
{
    report_one(packet::pid(buf), value)
}

// packet::transport_scrambling_control
pub fn cmv_packet_transport_scrambling_control(
    buf: &[u8],
    scrambled: &mut u64,
    scheme: &mut u64,
) -> u32
    ensures { Reports (read_scrambling buf.now) result (scrambled.old ∷ scheme.old ∷ [])
        (scrambled.new ∷ scheme.new ∷ []) }
{
    report_two(packet::transport_scrambling_control(buf), scrambled, scheme)
}

// packet::adaptation_control
pub fn cmv_packet_adaptation_control(buf: &[u8], field: &mut u64, payload: &mut u64) -> u32
    ensures { Reports (read_control buf.now) result (field.old ∷ payload.old ∷ [])
        (field.new ∷ payload.new ∷ []) }
{
    report_two(packet::adaptation_control(buf), field, payload)
}

// packet::continuity_counter
pub fn cmv_packet_continuity_counter(buf: &[u8], value: &mut u64) -> u32
    ensures { Reports (read_counter buf.now) result (value.old ∷ []) (value.new ∷ []) }
{
    report_one(packet::continuity_counter(buf), value)
}

// packet::adaptation_field_at: where what adaptation_field gives lies
pub fn cmv_packet_adaptation_field(buf: &[u8], place: &mut u64, length: &mut u64) -> u32
    ensures { Reports (read_adaptation buf.now) result (place.old ∷ length.old ∷ [])
        (place.new ∷ length.new ∷ []) }
{
    report_two(packet::adaptation_field_at(buf), place, length)
}

// packet::payload_at: where what payload gives lies
pub fn cmv_packet_payload(buf: &[u8], place: &mut u64, length: &mut u64) -> u32
    ensures { Reports (read_payload buf.now) result (place.old ∷ length.old ∷ [])
        (place.new ∷ length.new ∷ []) }
{
    report_two(packet::payload_at(buf), place, length)
}

// packet::SYNC_BYTE and packet::SIZE
pub fn cmv_packet_constants(sync: &mut u64, size: &mut u64) -> u32
    ensures { Reports (answer done (0x47 ∷ 188 ∷ [])) result (sync.old ∷ size.old ∷ [])
        (sync.new ∷ size.new ∷ []) }
{
    *sync = packet::SYNC_BYTE as u64;
    *size = packet::SIZE as u64;
    DONE
}
