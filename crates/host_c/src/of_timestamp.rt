// The exports of host::of_timestamp.
ghost use Rattle.std.specs.Prelude.{[], ◌∷◌, ◌-◌, ◌^◌};
ghost use Rattle.bits.specs.Answer.{answer};
ghost use Rattle.bits.specs.Numbers.{done};
ghost use Rattle.timestamp.specs.Stamp.{make_stamp, read_stamp, read_prefixed, pts_prefix, dts_prefix};
ghost use Rattle.host.specs.Reports.{Reports};
ghost use Rattle.host.specs.Stamps.{wrap_answer};

#[unsafe(no_mangle)]
pub extern "C" fn cmv_timestamp_from_pts_bytes(buf: &[u8], value: &mut u64) -> u32
    ensures { Reports (read_prefixed pts_prefix buf.now) result (value.old ∷ []) (value.new ∷ []) }
{
    host::of_timestamp::cmv_timestamp_from_pts_bytes(buf, value)
}

#[unsafe(no_mangle)]
pub extern "C" fn cmv_timestamp_from_dts_bytes(buf: &[u8], value: &mut u64) -> u32
    ensures { Reports (read_prefixed dts_prefix buf.now) result (value.old ∷ []) (value.new ∷ []) }
{
    host::of_timestamp::cmv_timestamp_from_dts_bytes(buf, value)
}

#[unsafe(no_mangle)]
pub extern "C" fn cmv_timestamp_from_bytes(buf: &[u8], value: &mut u64) -> u32
    ensures { Reports (read_stamp buf.now) result (value.old ∷ []) (value.new ∷ []) }
{
    host::of_timestamp::cmv_timestamp_from_bytes(buf, value)
}

#[unsafe(no_mangle)]
pub extern "C" fn cmv_timestamp_from_u64(val: u64, value: &mut u64) -> u32
    ensures { Reports (make_stamp val) result (value.old ∷ []) (value.new ∷ []) }
{
    host::of_timestamp::cmv_timestamp_from_u64(val, value)
}

#[unsafe(no_mangle)]
pub extern "C" fn cmv_timestamp_likely_wrapped_since(val: u64, since: u64, wrapped: &mut u64) -> u32
    ensures { Reports (wrap_answer val since) result (wrapped.old ∷ []) (wrapped.new ∷ []) }
{
    host::of_timestamp::cmv_timestamp_likely_wrapped_since(val, since, wrapped)
}

#[unsafe(no_mangle)]
pub extern "C" fn cmv_timestamp_constants(max: &mut u64, timebase: &mut u64) -> u32
    ensures { Reports (answer done ((2 ^ 33 - 1) ∷ 90_000 ∷ [])) result (max.old ∷ timebase.old ∷ [])
        (max.new ∷ timebase.new ∷ []) }
{
    host::of_timestamp::cmv_timestamp_constants(max, timebase)
}
