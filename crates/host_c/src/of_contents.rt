// The exports of host::of_contents.
ghost use Rattle.std.specs.Prelude.{[], ◌∷◌};
ghost use Rattle.contents.specs.Contents.{scrambling_bit, pes_priority_bit, alignment_bit, copyright_bit, original_bit, flags_bit, data_length_bit};
ghost use Rattle.contents.specs.Contents.{read_contents, read_fixed, read_pts_dts, read_escr, read_es_rate, read_copy_info, read_crc, read_pes_extension};
ghost use Rattle.contents.specs.Contents.{read_parsed_payload, make_rate, rate_bytes};
ghost use Rattle.contents.specs.Trick.{read_trick, read_raw_trick};
ghost use Rattle.host.specs.Reports.{Reports};

#[unsafe(no_mangle)]
pub extern "C" fn cmv_pes_contents_from_bytes(buf: &[u8]) -> u32
    ensures { Reports (read_contents buf.now) result [] [] }
{
    host::of_contents::cmv_pes_contents_from_bytes(buf)
}

#[unsafe(no_mangle)]
pub extern "C" fn cmv_pes_contents_pes_priority(buf: &[u8], value: &mut u64) -> u32
    ensures { Reports (read_fixed pes_priority_bit 1 buf.now) result (value.old ∷ []) (value.new ∷ []) }
{
    host::of_contents::cmv_pes_contents_pes_priority(buf, value)
}

#[unsafe(no_mangle)]
pub extern "C" fn cmv_pes_contents_pes_scrambling_control(buf: &[u8], value: &mut u64) -> u32
    ensures { Reports (read_fixed scrambling_bit 2 buf.now) result (value.old ∷ []) (value.new ∷ []) }
{
    host::of_contents::cmv_pes_contents_pes_scrambling_control(buf, value)
}

#[unsafe(no_mangle)]
pub extern "C" fn cmv_pes_contents_flags(buf: &[u8], value: &mut u64) -> u32
    ensures { Reports (read_fixed flags_bit 8 buf.now) result (value.old ∷ []) (value.new ∷ []) }
{
    host::of_contents::cmv_pes_contents_flags(buf, value)
}

#[unsafe(no_mangle)]
pub extern "C" fn cmv_pes_contents_pes_header_data_len(buf: &[u8], value: &mut u64) -> u32
    ensures { Reports (read_fixed data_length_bit 8 buf.now) result (value.old ∷ []) (value.new ∷ []) }
{
    host::of_contents::cmv_pes_contents_pes_header_data_len(buf, value)
}

#[unsafe(no_mangle)]
pub extern "C" fn cmv_pes_contents_data_alignment_indicator(buf: &[u8], value: &mut u64) -> u32
    ensures { Reports (read_fixed alignment_bit 1 buf.now) result (value.old ∷ []) (value.new ∷ []) }
{
    host::of_contents::cmv_pes_contents_data_alignment_indicator(buf, value)
}

#[unsafe(no_mangle)]
pub extern "C" fn cmv_pes_contents_copyright(buf: &[u8], value: &mut u64) -> u32
    ensures { Reports (read_fixed copyright_bit 1 buf.now) result (value.old ∷ []) (value.new ∷ []) }
{
    host::of_contents::cmv_pes_contents_copyright(buf, value)
}

#[unsafe(no_mangle)]
pub extern "C" fn cmv_pes_contents_original_or_copy(buf: &[u8], value: &mut u64) -> u32
    ensures { Reports (read_fixed original_bit 1 buf.now) result (value.old ∷ []) (value.new ∷ []) }
{
    host::of_contents::cmv_pes_contents_original_or_copy(buf, value)
}

#[unsafe(no_mangle)]
pub extern "C" fn cmv_pes_contents_pts_dts(
    buf: &[u8],
    kind: &mut u64,
    ptsnumber: &mut u64,
    pts: &mut u64,
    dtsnumber: &mut u64,
    dts: &mut u64,
) -> u32
    ensures { Reports (read_pts_dts buf.now) result
        (kind.old ∷ ptsnumber.old ∷ pts.old ∷ dtsnumber.old ∷ dts.old ∷ [])
        (kind.new ∷ ptsnumber.new ∷ pts.new ∷ dtsnumber.new ∷ dts.new ∷ []) }
{
    host::of_contents::cmv_pes_contents_pts_dts(buf, kind, ptsnumber, pts, dtsnumber, dts)
}

#[unsafe(no_mangle)]
pub extern "C" fn cmv_pes_contents_escr(buf: &[u8], base: &mut u64, extension: &mut u64) -> u32
    ensures { Reports (read_escr buf.now) result (base.old ∷ extension.old ∷ [])
        (base.new ∷ extension.new ∷ []) }
{
    host::of_contents::cmv_pes_contents_escr(buf, base, extension)
}

#[unsafe(no_mangle)]
pub extern "C" fn cmv_pes_contents_es_rate(buf: &[u8], value: &mut u64) -> u32
    ensures { Reports (read_es_rate buf.now) result (value.old ∷ []) (value.new ∷ []) }
{
    host::of_contents::cmv_pes_contents_es_rate(buf, value)
}

#[unsafe(no_mangle)]
pub extern "C" fn cmv_pes_contents_dsm_trick_mode(
    buf: &[u8],
    kind: &mut u64,
    first: &mut u64,
    second: &mut u64,
    third: &mut u64,
) -> u32
    ensures { Reports (read_trick buf.now) result
        (kind.old ∷ first.old ∷ second.old ∷ third.old ∷ [])
        (kind.new ∷ first.new ∷ second.new ∷ third.new ∷ []) }
{
    host::of_contents::cmv_pes_contents_dsm_trick_mode(buf, kind, first, second, third)
}

#[unsafe(no_mangle)]
pub extern "C" fn cmv_pes_contents_raw_trick_mode(buf: &[u8], value: &mut u64) -> u32
    ensures { Reports (read_raw_trick buf.now) result (value.old ∷ []) (value.new ∷ []) }
{
    host::of_contents::cmv_pes_contents_raw_trick_mode(buf, value)
}

#[unsafe(no_mangle)]
pub extern "C" fn cmv_pes_contents_additional_copy_info(buf: &[u8], value: &mut u64) -> u32
    ensures { Reports (read_copy_info buf.now) result (value.old ∷ []) (value.new ∷ []) }
{
    host::of_contents::cmv_pes_contents_additional_copy_info(buf, value)
}

#[unsafe(no_mangle)]
pub extern "C" fn cmv_pes_contents_previous_pes_packet_crc(buf: &[u8], value: &mut u64) -> u32
    ensures { Reports (read_crc buf.now) result (value.old ∷ []) (value.new ∷ []) }
{
    host::of_contents::cmv_pes_contents_previous_pes_packet_crc(buf, value)
}

#[unsafe(no_mangle)]
pub extern "C" fn cmv_pes_contents_pes_extension(
    buf: &[u8],
    place: &mut u64,
    length: &mut u64,
) -> u32
    ensures { Reports (read_pes_extension buf.now) result (place.old ∷ length.old ∷ [])
        (place.new ∷ length.new ∷ []) }
{
    host::of_contents::cmv_pes_contents_pes_extension(buf, place, length)
}

#[unsafe(no_mangle)]
pub extern "C" fn cmv_pes_contents_payload(buf: &[u8], place: &mut u64, length: &mut u64) -> u32
    ensures { Reports (read_parsed_payload buf.now) result (place.old ∷ length.old ∷ [])
        (place.new ∷ length.new ∷ []) }
{
    host::of_contents::cmv_pes_contents_payload(buf, place, length)
}

#[unsafe(no_mangle)]
pub extern "C" fn cmv_es_rate_new(rate: u32, value: &mut u64) -> u32
    ensures { Reports (make_rate rate) result (value.old ∷ []) (value.new ∷ []) }
{
    host::of_contents::cmv_es_rate_new(rate, value)
}

#[unsafe(no_mangle)]
pub extern "C" fn cmv_es_rate_bytes_per_second(rate: u32, value: &mut u64) -> u32
    ensures { Reports (rate_bytes rate) result (value.old ∷ []) (value.new ∷ []) }
{
    host::of_contents::cmv_es_rate_bytes_per_second(rate, value)
}
