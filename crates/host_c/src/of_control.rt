// The exports of host::of_control.
ghost use Rattle.std.specs.Prelude.{[], ◌∷◌, ◌-◌, ◌^◌};
ghost use Rattle.bits.specs.Answer.{answer};
ghost use Rattle.bits.specs.Numbers.{done};
ghost use Rattle.control.specs.Clock.{read_clock, make_clock, clock_number};
ghost use Rattle.control.specs.Control.{make_counter, make_pid};
ghost use Rattle.host.specs.Reports.{Reports};
ghost use Rattle.host.specs.Clocks.{same_answer, compared_answer, follows_answer, control_answer, scrambling_answer};

#[unsafe(no_mangle)]
pub extern "C" fn cmv_clock_ref_from_slice(buf: &[u8], base: &mut u64, extension: &mut u64) -> u32
    ensures { Reports (read_clock buf.now) result (base.old ∷ extension.old ∷ [])
        (base.new ∷ extension.new ∷ []) }
{
    host::of_control::cmv_clock_ref_from_slice(buf, base, extension)
}

#[unsafe(no_mangle)]
pub extern "C" fn cmv_clock_ref_from_parts(
    b: u64,
    e: u16,
    base: &mut u64,
    extension: &mut u64,
) -> u32
    ensures { Reports (make_clock b e) result (base.old ∷ extension.old ∷ [])
        (base.new ∷ extension.new ∷ []) }
{
    host::of_control::cmv_clock_ref_from_parts(b, e, base, extension)
}

#[unsafe(no_mangle)]
pub extern "C" fn cmv_clock_ref_into_u64(base: u64, extension: u16, number: &mut u64) -> u32
    ensures { Reports (clock_number base extension) result (number.old ∷ []) (number.new ∷ []) }
{
    host::of_control::cmv_clock_ref_into_u64(base, extension, number)
}

#[unsafe(no_mangle)]
pub extern "C" fn cmv_clock_ref_eq(
    base: u64,
    extension: u16,
    base2: u64,
    extension2: u16,
    same: &mut u64,
) -> u32
    ensures { Reports (same_answer base extension base2 extension2) result (same.old ∷ []) (same.new ∷ []) }
{
    host::of_control::cmv_clock_ref_eq(base, extension, base2, extension2, same)
}

#[unsafe(no_mangle)]
pub extern "C" fn cmv_continuity_counter_new(count: u8, value: &mut u64) -> u32
    ensures { Reports (make_counter count) result (value.old ∷ []) (value.new ∷ []) }
{
    host::of_control::cmv_continuity_counter_new(count, value)
}

#[unsafe(no_mangle)]
pub extern "C" fn cmv_continuity_counter_compare(count: u8, last: u8, compared: &mut u64) -> u32
    ensures { Reports (compared_answer count last) result (compared.old ∷ []) (compared.new ∷ []) }
{
    host::of_control::cmv_continuity_counter_compare(count, last, compared)
}

#[unsafe(no_mangle)]
pub extern "C" fn cmv_continuity_counter_follows(count: u8, other: u8, follows: &mut u64) -> u32
    ensures { Reports (follows_answer count other) result (follows.old ∷ []) (follows.new ∷ []) }
{
    host::of_control::cmv_continuity_counter_follows(count, other, follows)
}

#[unsafe(no_mangle)]
pub extern "C" fn cmv_pid_new(pid: u16, value: &mut u64) -> u32
    ensures { Reports (make_pid pid) result (value.old ∷ []) (value.new ∷ []) }
{
    host::of_control::cmv_pid_new(pid, value)
}

#[unsafe(no_mangle)]
pub extern "C" fn cmv_pid_try_from(pid: u16, value: &mut u64) -> u32
    ensures { Reports (make_pid pid) result (value.old ∷ []) (value.new ∷ []) }
{
    host::of_control::cmv_pid_try_from(pid, value)
}

#[unsafe(no_mangle)]
pub extern "C" fn cmv_adaptation_control(byte: u8, field: &mut u64, payload: &mut u64) -> u32
    ensures { Reports (control_answer byte) result (field.old ∷ payload.old ∷ [])
        (field.new ∷ payload.new ∷ []) }
{
    host::of_control::cmv_adaptation_control(byte, field, payload)
}

#[unsafe(no_mangle)]
pub extern "C" fn cmv_transport_scrambling_control(
    byte: u8,
    scrambled: &mut u64,
    scheme: &mut u64,
) -> u32
    ensures { Reports (scrambling_answer byte) result (scrambled.old ∷ scheme.old ∷ [])
        (scrambled.new ∷ scheme.new ∷ []) }
{
    host::of_control::cmv_transport_scrambling_control(byte, scrambled, scheme)
}

#[unsafe(no_mangle)]
pub extern "C" fn cmv_control_constants(max: &mut u64, count: &mut u64) -> u32
    ensures { Reports (answer done ((2 ^ 13 - 1) ∷ 2 ^ 13 ∷ [])) result (max.old ∷ count.old ∷ [])
        (max.new ∷ count.new ∷ []) }
{
    host::of_control::cmv_control_constants(max, count)
}
