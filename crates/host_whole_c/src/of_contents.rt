// The exports of host_whole::of_contents.
ghost use Rattle.host.specs.Reports.{Reports};
ghost use Rattle.host_whole.specs.Whole.{contents_fields};

#[unsafe(no_mangle)]
pub extern "C" fn cmv_pes_contents_fields(buf: &[u8], fields: &mut [u64; 34]) -> u32
    ensures { Reports (contents_fields buf.now) result fields.old fields.new }
{
    host_whole::of_contents::cmv_pes_contents_fields(buf, fields)
}
