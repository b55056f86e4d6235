// The exports of host::of_adaptation.
ghost use Rattle.std.specs.Prelude.{[], ◌∷◌};
ghost use Rattle.adaptation.specs.Adaptation.{read_flag, read_pcr, read_opcr, read_splice_countdown};
ghost use Rattle.adaptation.specs.Adaptation.{read_private_data, read_extension};
ghost use Rattle.adaptation.specs.Extension.{read_ltw, read_rate, read_splice};
ghost use Rattle.host.specs.Reports.{Reports};

#[unsafe(no_mangle)]
pub extern "C" fn cmv_adaptation_field_discontinuity_indicator(buf: &[u8], value: &mut u64) -> u32
    ensures { Reports (read_flag 0 buf.now) result (value.old ∷ []) (value.new ∷ []) }
{
    host::of_adaptation::cmv_adaptation_field_discontinuity_indicator(buf, value)
}

#[unsafe(no_mangle)]
pub extern "C" fn cmv_adaptation_field_random_access_indicator(buf: &[u8], value: &mut u64) -> u32
    ensures { Reports (read_flag 1 buf.now) result (value.old ∷ []) (value.new ∷ []) }
{
    host::of_adaptation::cmv_adaptation_field_random_access_indicator(buf, value)
}

#[unsafe(no_mangle)]
pub extern "C" fn cmv_adaptation_field_elementary_stream_priority_indicator(
    buf: &[u8],
    value: &mut u64,
) -> u32
    ensures { Reports (read_flag 2 buf.now) result (value.old ∷ []) (value.new ∷ []) }
{
    host::of_adaptation::cmv_adaptation_field_elementary_stream_priority_indicator(buf, value)
}

#[unsafe(no_mangle)]
pub extern "C" fn cmv_adaptation_field_pcr(buf: &[u8], base: &mut u64, extension: &mut u64) -> u32
    ensures { Reports (read_pcr buf.now) result (base.old ∷ extension.old ∷ [])
        (base.new ∷ extension.new ∷ []) }
{
    host::of_adaptation::cmv_adaptation_field_pcr(buf, base, extension)
}

#[unsafe(no_mangle)]
pub extern "C" fn cmv_adaptation_field_opcr(buf: &[u8], base: &mut u64, extension: &mut u64) -> u32
    ensures { Reports (read_opcr buf.now) result (base.old ∷ extension.old ∷ [])
        (base.new ∷ extension.new ∷ []) }
{
    host::of_adaptation::cmv_adaptation_field_opcr(buf, base, extension)
}

#[unsafe(no_mangle)]
pub extern "C" fn cmv_adaptation_field_splice_countdown(buf: &[u8], value: &mut u64) -> u32
    ensures { Reports (read_splice_countdown buf.now) result (value.old ∷ []) (value.new ∷ []) }
{
    host::of_adaptation::cmv_adaptation_field_splice_countdown(buf, value)
}

#[unsafe(no_mangle)]
pub extern "C" fn cmv_adaptation_field_transport_private_data(
    buf: &[u8],
    place: &mut u64,
    length: &mut u64,
) -> u32
    ensures { Reports (read_private_data buf.now) result (place.old ∷ length.old ∷ [])
        (place.new ∷ length.new ∷ []) }
{
    host::of_adaptation::cmv_adaptation_field_transport_private_data(buf, place, length)
}

#[unsafe(no_mangle)]
pub extern "C" fn cmv_adaptation_field_extension(
    buf: &[u8],
    place: &mut u64,
    length: &mut u64,
) -> u32
    ensures { Reports (read_extension buf.now) result (place.old ∷ length.old ∷ [])
        (place.new ∷ length.new ∷ []) }
{
    host::of_adaptation::cmv_adaptation_field_extension(buf, place, length)
}

#[unsafe(no_mangle)]
pub extern "C" fn cmv_adaptation_extension_ltw_offset(
    buf: &[u8],
    kind: &mut u64,
    offset: &mut u64,
) -> u32
    ensures { Reports (read_ltw buf.now) result (kind.old ∷ offset.old ∷ [])
        (kind.new ∷ offset.new ∷ []) }
{
    host::of_adaptation::cmv_adaptation_extension_ltw_offset(buf, kind, offset)
}

#[unsafe(no_mangle)]
pub extern "C" fn cmv_adaptation_extension_piecewise_rate(buf: &[u8], value: &mut u64) -> u32
    ensures { Reports (read_rate buf.now) result (value.old ∷ []) (value.new ∷ []) }
{
    host::of_adaptation::cmv_adaptation_extension_piecewise_rate(buf, value)
}

#[unsafe(no_mangle)]
pub extern "C" fn cmv_adaptation_extension_seamless_splice(
    buf: &[u8],
    splice: &mut u64,
    dts: &mut u64,
) -> u32
    ensures { Reports (read_splice buf.now) result (splice.old ∷ dts.old ∷ [])
        (splice.new ∷ dts.new ∷ []) }
{
    host::of_adaptation::cmv_adaptation_extension_seamless_splice(buf, splice, dts)
}
