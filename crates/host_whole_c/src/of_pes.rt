// The exports of host_whole::of_pes.
ghost use Rattle.host.specs.Reports.{Reports};
ghost use Rattle.host_whole.specs.Whole.{header_fields};

#[unsafe(no_mangle)]
pub extern "C" fn cmv_pes_header_fields(buf: &[u8], fields: &mut [u64; 7]) -> u32
    ensures { Reports (header_fields buf.now) result fields.old fields.new }
{
    host_whole::of_pes::cmv_pes_header_fields(buf, fields)
}
