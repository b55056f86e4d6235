// The exports of host::of_packet.
ghost use Rattle.std.specs.Prelude.{[], ◌∷◌, eqb};
ghost use Rattle.bits.specs.Answer.{answer, truth};
ghost use Rattle.bits.specs.Numbers.{done};
ghost use Rattle.packet.specs.Packet.{tried, read_flag, error_bit, start_bit, priority_bit, read_pid, read_counter};
ghost use Rattle.packet.specs.Packet.{read_adaptation, read_payload};
ghost use Rattle.host.specs.Reports.{Reports};
ghost use Rattle.host.specs.Packets.{read_scrambling, read_control};

#[unsafe(no_mangle)]
pub extern "C" fn cmv_packet_is_sync_byte(b: u8, is: &mut u64) -> u32
    ensures { Reports (answer done (truth (eqb b 0x47) ∷ [])) result (is.old ∷ []) (is.new ∷ []) }
{
    host::of_packet::cmv_packet_is_sync_byte(b, is)
}

#[unsafe(no_mangle)]
pub extern "C" fn cmv_packet_try_new(buf: &[u8]) -> u32
    ensures { Reports (tried buf.now) result [] [] }
{
    host::of_packet::cmv_packet_try_new(buf)
}

#[unsafe(no_mangle)]
pub extern "C" fn cmv_packet_transport_error_indicator(buf: &[u8], value: &mut u64) -> u32
    ensures { Reports (read_flag error_bit buf.now) result (value.old ∷ []) (value.new ∷ []) }
{
    host::of_packet::cmv_packet_transport_error_indicator(buf, value)
}

#[unsafe(no_mangle)]
pub extern "C" fn cmv_packet_payload_unit_start_indicator(buf: &[u8], value: &mut u64) -> u32
    ensures { Reports (read_flag start_bit buf.now) result (value.old ∷ []) (value.new ∷ []) }
{
    host::of_packet::cmv_packet_payload_unit_start_indicator(buf, value)
}

#[unsafe(no_mangle)]
pub extern "C" fn cmv_packet_transport_priority(buf: &[u8], value: &mut u64) -> u32
    ensures { Reports (read_flag priority_bit buf.now) result (value.old ∷ []) (value.new ∷ []) }
{
    host::of_packet::cmv_packet_transport_priority(buf, value)
}

#[unsafe(no_mangle)]
pub extern "C" fn cmv_packet_pid(buf: &[u8], value: &mut u64) -> u32
    ensures { Reports (read_pid buf.now) result (value.old ∷ []) (value.new ∷ []) }
{
    host::of_packet::cmv_packet_pid(buf, value)
}

#[unsafe(no_mangle)]
pub extern "C" fn cmv_packet_transport_scrambling_control(
    buf: &[u8],
    scrambled: &mut u64,
    scheme: &mut u64,
) -> u32
    ensures { Reports (read_scrambling buf.now) result (scrambled.old ∷ scheme.old ∷ [])
        (scrambled.new ∷ scheme.new ∷ []) }
{
    host::of_packet::cmv_packet_transport_scrambling_control(buf, scrambled, scheme)
}

#[unsafe(no_mangle)]
pub extern "C" fn cmv_packet_adaptation_control(
    buf: &[u8],
    field: &mut u64,
    payload: &mut u64,
) -> u32
    ensures { Reports (read_control buf.now) result (field.old ∷ payload.old ∷ [])
        (field.new ∷ payload.new ∷ []) }
{
    host::of_packet::cmv_packet_adaptation_control(buf, field, payload)
}

#[unsafe(no_mangle)]
pub extern "C" fn cmv_packet_continuity_counter(buf: &[u8], value: &mut u64) -> u32
    ensures { Reports (read_counter buf.now) result (value.old ∷ []) (value.new ∷ []) }
{
    host::of_packet::cmv_packet_continuity_counter(buf, value)
}

#[unsafe(no_mangle)]
pub extern "C" fn cmv_packet_adaptation_field(buf: &[u8], place: &mut u64, length: &mut u64) -> u32
    ensures { Reports (read_adaptation buf.now) result (place.old ∷ length.old ∷ [])
        (place.new ∷ length.new ∷ []) }
{
    host::of_packet::cmv_packet_adaptation_field(buf, place, length)
}

#[unsafe(no_mangle)]
pub extern "C" fn cmv_packet_payload(buf: &[u8], place: &mut u64, length: &mut u64) -> u32
    ensures { Reports (read_payload buf.now) result (place.old ∷ length.old ∷ [])
        (place.new ∷ length.new ∷ []) }
{
    host::of_packet::cmv_packet_payload(buf, place, length)
}

#[unsafe(no_mangle)]
pub extern "C" fn cmv_packet_constants(sync: &mut u64, size: &mut u64) -> u32
    ensures { Reports (answer done (0x47 ∷ 188 ∷ [])) result (sync.old ∷ size.old ∷ [])
        (sync.new ∷ size.new ∷ []) }
{
    host::of_packet::cmv_packet_constants(sync, size)
}
