// Heads of PES packets.
ghost use Rattle.std.specs.Prelude.{[], ◌∷◌};
ghost use Rattle.pes.specs.Head.{length_values, contents_values, read_head, read_stream_id, read_length, read_contents_part};
ghost use Rattle.pes.specs.Stream.{stream_values};
ghost use Rattle.host.specs.Reports.{Reports};

use crate::told::{Told, report, report_three, report_two};
use pes::{PesContents, PesLength, StreamId};

// pes::from_bytes
pub fn cmv_pes_header_from_bytes(buf: &[u8]) -> u32
    ensures { Reports (read_head buf.now) result [] [] }
{
    report(pes::from_bytes(buf))
}

// A kind, and what is kept beside it.
impl Told<2> for StreamId {
    ghost values = { stream_values };

    fn told(self) -> [u64; 2] {
        match self {
            StreamId::ProgramStreamMap => [0xBC, 0],
            StreamId::PrivateStream1 => [0xBD, 0],
            StreamId::PaddingStream => [0xBE, 0],
            StreamId::PrivateStream2 => [0xBF, 0],
            StreamId::Audio(n) => [0xC0, n as u64],
            StreamId::Video(n) => [0xE0, n as u64],
            StreamId::EcmStream => [0xF0, 0],
            StreamId::EmmStream => [0xF1, 0],
            StreamId::DsmCc => [0xF2, 0],
            StreamId::Iso13522Stream => [0xF3, 0],
            StreamId::H2221TypeA => [0xF4, 0],
            StreamId::H2221TypeB => [0xF5, 0],
            StreamId::H2221TypeC => [0xF6, 0],
            StreamId::H2221TypeD => [0xF7, 0],
            StreamId::H2221TypeE => [0xF8, 0],
            StreamId::AncillaryStream => [0xF9, 0],
            StreamId::SlPacketizedStream => [0xFA, 0],
            StreamId::FlexMuxStream => [0xFB, 0],
            StreamId::MetadataStream => [0xFC, 0],
            StreamId::ExtendedStreamId => [0xFD, 0],
            StreamId::ReservedDataStream => [0xFE, 0],
            StreamId::ProgramStreamDirectory => [0xFF, 0],
            StreamId::Unknown(n) => [0, n as u64],
        }
    }
}

// pes::stream_id: kind C0 hex audio and E0 hex video, each with the low five bits of the id; kind 0 an id below BC hex, with the id. Any
// other kind is the id itself, with 0: in hex BC program stream map, BD private stream 1, BE padding, BF private stream 2, F0 ECM,
// F1 EMM, F2 DSM-CC, F3 ISO 13522, F4 to F8 H.222.1 types A to E, F9 ancillary, FA SL-packetized, FB FlexMux, FC metadata,
// FD extended stream id, FE reserved data, FF program stream directory.
pub fn cmv_pes_header_stream_id(buf: &[u8], kind: &mut u64, low: &mut u64) -> u32
    ensures { Reports (read_stream_id buf.now) result (kind.old ∷ low.old ∷ [])
        (kind.new ∷ low.new ∷ []) }
{
    report_two(pes::stream_id(buf), kind, low)
}

impl Told<2> for PesLength {
    ghost values = { length_values };

    fn told(self) -> [u64; 2] {
        match self {
            PesLength::Unbounded => [0, 0],
            PesLength::Bounded(n) => [1, n as u64],
        }
    }
}

// pes::pes_packet_length: kind 0 unbounded, kind 1 bounded
pub fn cmv_pes_header_pes_packet_length(buf: &[u8], kind: &mut u64, length: &mut u64) -> u32
    ensures { Reports (read_length buf.now) result (kind.old ∷ length.old ∷ [])
        (kind.new ∷ length.new ∷ []) }
{
    report_two(pes::pes_packet_length(buf), kind, length)
}

impl Told<3> for PesContents {
    ghost values = { contents_values };

    fn told(self) -> [u64; 3] {
        match self {
            PesContents::Payload(e) => [0, e.place as u64, e.length as u64],
            PesContents::Parsed(e) => [1, e.place as u64, e.length as u64],
        }
    }
}

// pes::contents: kind 0 bare payload, kind 1 parsed contents, and where they lie
pub fn cmv_pes_header_contents(buf: &[u8], kind: &mut u64, place: &mut u64, length: &mut u64) -> u32
    ensures { Reports (read_contents_part buf.now) result (kind.old ∷ place.old ∷ length.old ∷ [])
        (kind.new ∷ place.new ∷ length.new ∷ []) }
{
    report_three(pes::contents(buf), kind, place, length)
}
