// The exports of host_streams::of_writer.
ghost use Rattle.std.specs.Prelude.{◌≡◌, [], ◌∷◌};
ghost use Rattle.writer.specs.Row.{route, row_write_of, row_output_of};
ghost use Rattle.host.specs.Reports.{Reports};

#[unsafe(no_mangle)]
pub extern "C" fn cmv_write(
    pid: u16,
    counter: u8,
    unit: &[u64; 20],
    payload: &[u8],
    out: &mut [u8],
    count: &mut u64,
) -> u32
    ensures { Reports (row_write_of (route pid counter) unit.now payload.now out.old) result
        (count.old ∷ []) (count.new ∷ [])
        × (out.new ≡ row_output_of (route pid counter) unit.now payload.now out.old) }
{
    host_streams::of_writer::cmv_write(pid, counter, unit, payload, out, count)
}
