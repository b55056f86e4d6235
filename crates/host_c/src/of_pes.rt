// The exports of host::of_pes.
ghost use Rattle.std.specs.Prelude.{[], ◌∷◌};
ghost use Rattle.pes.specs.Head.{read_head, read_stream_id, read_length, read_contents_part};
ghost use Rattle.host.specs.Reports.{Reports};

#[unsafe(no_mangle)]
pub extern "C" fn cmv_pes_header_from_bytes(buf: &[u8]) -> u32
    ensures { Reports (read_head buf.now) result [] [] }
{
    host::of_pes::cmv_pes_header_from_bytes(buf)
}

#[unsafe(no_mangle)]
pub extern "C" fn cmv_pes_header_stream_id(buf: &[u8], kind: &mut u64, low: &mut u64) -> u32
    ensures { Reports (read_stream_id buf.now) result (kind.old ∷ low.old ∷ [])
        (kind.new ∷ low.new ∷ []) }
{
    host::of_pes::cmv_pes_header_stream_id(buf, kind, low)
}

#[unsafe(no_mangle)]
pub extern "C" fn cmv_pes_header_pes_packet_length(
    buf: &[u8],
    kind: &mut u64,
    length: &mut u64,
) -> u32
    ensures { Reports (read_length buf.now) result (kind.old ∷ length.old ∷ [])
        (kind.new ∷ length.new ∷ []) }
{
    host::of_pes::cmv_pes_header_pes_packet_length(buf, kind, length)
}

#[unsafe(no_mangle)]
pub extern "C" fn cmv_pes_header_contents(
    buf: &[u8],
    kind: &mut u64,
    place: &mut u64,
    length: &mut u64,
) -> u32
    ensures { Reports (read_contents_part buf.now) result (kind.old ∷ place.old ∷ length.old ∷ [])
        (kind.new ∷ place.new ∷ length.new ∷ []) }
{
    host::of_pes::cmv_pes_header_contents(buf, kind, place, length)
}
