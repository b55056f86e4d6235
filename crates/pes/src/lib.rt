// The head of a PES packet (`PesHeader` and `StreamId` of the original's pes.rs), read off a slice that begins with it.
#![tactic(auto, using(crate::proofs::Laws::pes_laws))]

ghost use Rattle.std.specs.Prelude.{◌≡◌};
ghost use Rattle.bits.specs.Answer.{part_of};
ghost use Rattle.bits.specs.Refused.{given, no_values};
ghost use Rattle.pes.specs.Stream.{stream_values, given_id, kind_of, read_id, parsed_id};
ghost use Rattle.pes.specs.Head.{length_values, contents_values, read_head, read_stream_id, read_length, read_contents_part, contents_part};

use bits::{Extent, Refusal};

// What a stream id stands for.
#[derive(Clone, Copy, Debug, PartialEq, Eq)]
pub enum StreamId {
    ProgramStreamMap,
    PrivateStream1,
    PaddingStream,
    PrivateStream2,
    Audio(u8),
    Video(u8),
    EcmStream,
    EmmStream,
    DsmCc,
    Iso13522Stream,
    H2221TypeA,
    H2221TypeB,
    H2221TypeC,
    H2221TypeD,
    H2221TypeE,
    AncillaryStream,
    SlPacketizedStream,
    FlexMuxStream,
    MetadataStream,
    ExtendedStreamId,
    ReservedDataStream,
    ProgramStreamDirectory,
    Unknown(u8),
}

impl StreamId {
    #[tactic(auto, unfolding(crate::specs::Stream::id_values))]
    pub fn from_id(id: u8) -> StreamId
        ensures { given_id result ≡ read_id id }
    {
        match id {
            0xBC => StreamId::ProgramStreamMap,
            0xBD => StreamId::PrivateStream1,
            0xBE => StreamId::PaddingStream,
            0xBF => StreamId::PrivateStream2,
            0xC0..=0xDF => StreamId::Audio(id % 32),
            0xE0..=0xEF => StreamId::Video(id % 32),
            0xF0 => StreamId::EcmStream,
            0xF1 => StreamId::EmmStream,
            0xF2 => StreamId::DsmCc,
            0xF3 => StreamId::Iso13522Stream,
            0xF4 => StreamId::H2221TypeA,
            0xF5 => StreamId::H2221TypeB,
            0xF6 => StreamId::H2221TypeC,
            0xF7 => StreamId::H2221TypeD,
            0xF8 => StreamId::H2221TypeE,
            0xF9 => StreamId::AncillaryStream,
            0xFA => StreamId::SlPacketizedStream,
            0xFB => StreamId::FlexMuxStream,
            0xFC => StreamId::MetadataStream,
            0xFD => StreamId::ExtendedStreamId,
            0xFE => StreamId::ReservedDataStream,
            0xFF => StreamId::ProgramStreamDirectory,
            _ => StreamId::Unknown(id),
        }
    }

    // Whether parsed contents follow the head; after eight ids it is bare payload.
    #[tactic(auto, unfolding(crate::specs::Stream::parsed_id))]
    pub fn is_parsed(self) -> bool
        ensures { result ≡ parsed_id (kind_of self) }
    {
        match self {
            StreamId::ProgramStreamMap
            | StreamId::PaddingStream
            | StreamId::PrivateStream2
            | StreamId::EcmStream
            | StreamId::EmmStream
            | StreamId::ProgramStreamDirectory
            | StreamId::DsmCc
            | StreamId::H2221TypeE => false,
            _ => true,
        }
    }
}

// The length of the packet after its head; an unbounded one goes on to the next start.
#[derive(Clone, Copy, Debug, PartialEq, Eq)]
pub enum PesLength {
    Unbounded,
    Bounded(u16),
}

// What follows the head, and where it lies.
#[derive(Clone, Copy, Debug, PartialEq, Eq)]
pub enum PesContents {
    Payload(Extent),
    Parsed(Extent),
}

const FIXED_HEADER_SIZE: usize = 6;

// Whether the slice begins with a head.
pub fn from_bytes(buf: &[u8]) -> Result<(), Refusal>
    ensures { given no_values result ≡ read_head buf.now }
{
    if buf.len() < FIXED_HEADER_SIZE {
        return Err(Refusal::ShortHeader);
    }
    if buf[0] != 0 || buf[1] != 0 || buf[2] != 1 {
        return Err(Refusal::BadStartCode);
    }
    Ok(())
}

pub fn stream_id(buf: &[u8]) -> Result<StreamId, Refusal>
    ensures { given stream_values result ≡ read_stream_id buf.now }
{
    from_bytes(buf)?;
    Ok(StreamId::from_id(buf[3]))
}

pub fn pes_packet_length(buf: &[u8]) -> Result<PesLength, Refusal>
    ensures { given length_values result ≡ read_length buf.now }
{
    from_bytes(buf)?;
    match u16::from_be_bytes([buf[4], buf[5]]) {
        0 => Ok(PesLength::Unbounded),
        length => Ok(PesLength::Bounded(length)),
    }
}

// The kind of what follows the head, and where it lies.
pub fn contents(buf: &[u8]) -> Result<PesContents, Refusal>
    ensures { given contents_values result ≡ read_contents_part buf.now }
{
    let id = stream_id(buf)?;
    let rest = Extent {
        place: FIXED_HEADER_SIZE,
        length: buf.len() - FIXED_HEADER_SIZE,
    };
    if id.is_parsed() {
        Ok(PesContents::Parsed(rest))
    } else {
        Ok(PesContents::Payload(rest))
    }
}

// The bytes after the head, of whichever kind they are; none where the head is refused.
pub fn contents_part(buf: &[u8]) -> &[u8]
    ensures { result.now ≡ part_of (contents_part buf.now) buf.now }
{
    match from_bytes(buf) {
        Ok(()) => &buf[FIXED_HEADER_SIZE..],
        Err(_) => &[],
    }
}
