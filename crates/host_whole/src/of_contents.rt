// Parsed contents of a PES packet at one call.
#![tactic(auto, using(crate::proofs::Laws::whole_laws), unfolding(crate::specs::Whole::contents_fields))]

ghost use Rattle.std.specs.Prelude.{◌≡◌, ◌++◌, take, length};
ghost use Rattle.bits.specs.Refused.{given, no_values};
ghost use Rattle.contents.specs.Contents.{read_contents};
ghost use Rattle.host.specs.Reports.{Reports, outs};
ghost use Rattle.host_whole.specs.Whole.{fixed_fields, contents_fields};

use crate::rows::{put, put_row};
use bits::Refusal;
use contents::PesParsedContents;
use host::told::report;

// What contents always have.
fn put_fixed(c: PesParsedContents, fields: &mut [u64; 34])
    ensures { take 7 fields.new ≡ fixed_fields c.entry.fixed.buf.now }
{
    put(c.pes_scrambling_control(), 0, fields);
    put(c.pes_priority(), 1, fields);
    put(c.data_alignment_indicator(), 2, fields);
    put(c.copyright(), 3, fields);
    put(c.original_or_copy(), 4, fields);
    put(c.flags(), 5, fields);
    put(c.pes_header_data_len(), 6, fields);
}

fn put_contents(buf: &[u8], fields: &mut [u64; 34]) -> Result<(), Refusal>
    ensures told { given no_values result ≡ read_contents buf.now }
    ensures left { fields.new ≡ outs (contents_fields buf.now) fields.old }
{
    let c = PesParsedContents::from_bytes(buf)?;
    put_fixed(c, fields);
    put_row(c.pts_dts(), 7, fields);
    put_row(c.escr(), 13, fields);
    let located = c.located();
    put_row(located.es_rate(), 16, fields);
    put_row(located.dsm_trick_mode(), 18, fields);
    put_row(located.raw_trick_mode(), 23, fields);
    put_row(located.additional_copy_info(), 25, fields);
    put_row(located.previous_pes_packet_crc(), 27, fields);
    put_row(located.pes_extension_at(), 29, fields);
    put(c.payload_at(), 32, fields);
    Ok(())
}

// scrambling control, priority, alignment, copyright, original, the flags and the header data length; then the word and the numbers of each of
// PTS and DTS, ESCR, ES rate, trick mode, raw trick mode, copy info, CRC and extension; then place and length of the payload
pub fn cmv_pes_contents_fields(buf: &[u8], fields: &mut [u64; 34]) -> u32
    ensures { Reports (contents_fields buf.now) result fields.old fields.new }
{
    report(put_contents(buf, fields))
}
