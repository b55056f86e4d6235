// Heads of PES packets at one call.
#![tactic(auto, using(crate::proofs::Laws::whole_laws), unfolding(crate::specs::Whole::header_fields))]

ghost use Rattle.std.specs.Prelude.{◌≡◌, [], ◌∷◌};
ghost use Rattle.bits.specs.Answer.{truth};
ghost use Rattle.bits.specs.Refused.{given, no_values};
ghost use Rattle.pes.specs.Head.{read_head};
ghost use Rattle.pes.specs.Stream.{id_values, parsed_id};
ghost use Rattle.host.specs.Reports.{Reports, outs};
ghost use Rattle.host_whole.specs.Whole.{header_fields};

use bits::Refusal;
use host::told::{Told, report};

// By the id's number alone: StreamId::from_id makes a choice of 23 cases, which are turned into numbers again where it is told.
#[tactic(auto, unfolding(pes::specs::Stream::id_values, pes::specs::Stream::parsed_id))]
fn id_values(id: u8) -> (u64, u64, u64)
    ensures { (result.0 ∷ result.1 ∷ [] ≡ id_values id) × (result.2 ≡ truth (parsed_id id)) }
{
    match id {
        0x00..=0xBB => (0, id as u64, 1),
        0xC0..=0xDF => (0xC0, (id % 32) as u64, 1),
        0xE0..=0xEF => (0xE0, (id % 32) as u64, 1),
        _ => (id as u64, 0, parsed(id)),
    }
}

// 0 for the eight ids that carry bare payload.
#[tactic(auto, unfolding(pes::specs::Stream::parsed_id))]
fn parsed(id: u8) -> u64
    ensures { result ≡ truth (parsed_id id) }
{
    match id {
        0xBC | 0xBE | 0xBF | 0xF0 | 0xF1 | 0xF2 | 0xF8 | 0xFF => 0,
        _ => 1,
    }
}

fn put_header(buf: &[u8], fields: &mut [u64; 7]) -> Result<(), Refusal>
    ensures told { given no_values result ≡ read_head buf.now }
    ensures left { fields.new ≡ outs (header_fields buf.now) fields.old }
{
    let length = pes::pes_packet_length(buf)?;
    let (kind, low, parsed) = id_values(buf[3]);
    let [bounded, length]: [u64; 2] = length.told();
    let left = buf.len() - 6;
    *fields = [kind, low, bounded, length, parsed, 6, left as u64];
    Ok(())
}

// kind and low of the stream id, as cmv_pes_header_stream_id gives them; kind and length of PES_packet_length; kind, place and length of
// what follows the head
pub fn cmv_pes_header_fields(buf: &[u8], fields: &mut [u64; 7]) -> u32
    ensures { Reports (header_fields buf.now) result fields.old fields.new }
{
    report(put_header(buf, fields))
}
