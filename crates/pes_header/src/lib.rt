// A header read is an object (`PesHeader` of the original's pes.rs): it keeps the caller's bytes, and hands out a part of them as payload.
#![tactic(auto, using(crate::proofs::Laws::header_laws))]

ghost use Rattle.std.specs.Prelude.{◌≡◌};
ghost use Rattle.bits.specs.Answer.{part_of};
ghost use Rattle.bits.specs.Refused.{given, no_values, extent_values};
ghost use Rattle.pes.specs.Stream.{stream_values};
ghost use Rattle.pes.specs.Head.{length_values, contents_values, read_head, read_stream_id, read_length, read_contents_part, contents_part};
ghost use Rattle.pes_header.specs.Payload.{header_payload, payload_bytes};

use bits::{Extent, Refusal};
use pes::{PesContents, PesLength, StreamId};

// Where the payload lies: after the header data, or after the head where the id carries bare payload.
pub fn payload_at(buf: &[u8]) -> Result<Extent, Refusal>
    ensures { given extent_values result ≡ header_payload buf.now }
{
    match pes::contents(buf)? {
        PesContents::Payload(rest) => Ok(rest),
        PesContents::Parsed(rest) => {
            let payload = contents::payload_at(rest.of(buf))?;
            Ok(Extent {
                place: rest.place + payload.place,
                length: payload.length,
            })
        }
    }
}

// The payload; none where head or contents are refused.
pub fn payload(buf: &[u8]) -> &[u8]
    ensures { result.now ≡ payload_bytes buf.now }
{
    let Ok(payload) = payload_at(buf) else {
        return &[];
    };
    payload.of(buf)
}

// Each reader answers of the bytes kept as the function of its name does, `head` as `pes::from_bytes`. Where the head is refused the
// readers say which refusal it was, and a part handed out is empty. The fields of parsed contents are read off `contents_part` where
// `contents` says Parsed, as in the original; elsewhere they cannot be asked.
#[derive(Clone, Copy)]
pub struct PesHeader<'a> {
    pub buf: &'a [u8],
}

impl<'a> PesHeader<'a> {
    pub fn from_bytes(buf: &'a [u8]) -> PesHeader<'a>
        ensures { result.buf.now ≡ buf.now }
    {
        PesHeader { buf }
    }

    // Whether the bytes begin with a head.
    pub fn head(self) -> Result<(), Refusal>
        ensures { given no_values result ≡ read_head self.entry.buf.now }
    {
        pes::from_bytes(self.buf)
    }

    pub fn stream_id(self) -> Result<StreamId, Refusal>
        ensures { given stream_values result ≡ read_stream_id self.entry.buf.now }
    {
        pes::stream_id(self.buf)
    }

    pub fn pes_packet_length(self) -> Result<PesLength, Refusal>
        ensures { given length_values result ≡ read_length self.entry.buf.now }
    {
        pes::pes_packet_length(self.buf)
    }

    pub fn contents(self) -> Result<PesContents, Refusal>
        ensures { given contents_values result ≡ read_contents_part self.entry.buf.now }
    {
        pes::contents(self.buf)
    }

    // The bytes after the head, parsed contents or bare payload.
    pub fn contents_part(self) -> &'a [u8]
        ensures { result.now ≡ part_of (contents_part self.entry.buf.now) self.entry.buf.now }
    {
        pes::contents_part(self.buf)
    }

    pub fn payload_at(self) -> Result<Extent, Refusal>
        ensures { given extent_values result ≡ header_payload self.entry.buf.now }
    {
        payload_at(self.buf)
    }

    pub fn payload(self) -> &'a [u8]
        ensures { result.now ≡ payload_bytes self.entry.buf.now }
    {
        payload(self.buf)
    }
}
