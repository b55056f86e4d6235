// Headers: a line for each, with a group for every reader, the payload by the object `PesHeader`, and, where the id carries parsed contents,
// for two fields of these.
use crate::{header_object, show};
use bits::{Extent, Refusal, wide};
use contents::PtsDts;
use control::ClockRef;
use pes::{PesContents, PesLength, StreamId};
use std::io;
use timestamp::Timestamp;

// ---- the head

fn head(rt: &impl Print, r: Result<(), Refusal>) -> io::Result<()> {
    show::verdict(rt, r)?;
    show::comma(rt)
}

// The kinds of ids that the headers below have.
fn kind(rt: &impl Print, id: StreamId) -> io::Result<()> {
    match id {
        StreamId::PaddingStream => show::two(rt, 0xBE, 0),
        StreamId::Audio(low) => show::two(rt, 0xC0, wide(low)),
        StreamId::Video(low) => show::two(rt, 0xE0, wide(low)),
        _ => show::two(rt, 0, 0),
    }
}

fn stream_id(rt: &impl Print, r: Result<StreamId, Refusal>) -> io::Result<()> {
    match r {
        Ok(id) => {
            show::number(rt, 0)?;
            kind(rt, id)
        }
        Err(why) => show::refusal(rt, why),
    }?;
    show::comma(rt)
}

fn length(rt: &impl Print, r: Result<PesLength, Refusal>) -> io::Result<()> {
    match r {
        Ok(PesLength::Unbounded) => show::two(rt, 0, 0),
        Ok(PesLength::Bounded(n)) => show::two(rt, 0, n as u64),
        Err(why) => show::refusal(rt, why),
    }?;
    show::comma(rt)
}

fn extent(rt: &impl Print, e: Extent) -> io::Result<()> {
    show::two(rt, e.place as u64, e.length as u64)
}

fn contents(rt: &impl Print, r: Result<PesContents, Refusal>) -> io::Result<()> {
    match r {
        Ok(PesContents::Payload(e)) => {
            show::two(rt, 0, 0)?;
            extent(rt, e)
        }
        Ok(PesContents::Parsed(e)) => {
            show::two(rt, 0, 1)?;
            extent(rt, e)
        }
        Err(why) => show::refusal(rt, why),
    }?;
    show::comma(rt)
}

fn payload_at(rt: &impl Print, r: Result<Extent, Refusal>) -> io::Result<()> {
    match r {
        Ok(e) => {
            show::number(rt, 0)?;
            extent(rt, e)
        }
        Err(why) => show::refusal(rt, why),
    }?;
    show::comma(rt)
}

fn part(rt: &impl Print, bytes: &[u8]) -> io::Result<()> {
    show::bytes(rt, bytes)?;
    show::comma(rt)
}

// ---- fields of the parsed contents

fn stamp(rt: &impl Print, r: Result<Timestamp, Refusal>) -> io::Result<()> {
    match r {
        Ok(t) => show::two(rt, 0, t.value()),
        Err(why) => show::refusal(rt, why),
    }
}

fn pts_dts(rt: &impl Print, r: Result<PtsDts, Refusal>) -> io::Result<()> {
    match r {
        Ok(PtsDts::PtsOnly(pts)) => {
            show::number(rt, 0)?;
            stamp(rt, pts)
        }
        Ok(PtsDts::Both { pts, dts }) => {
            show::number(rt, 0)?;
            stamp(rt, pts)?;
            stamp(rt, dts)
        }
        Err(why) => show::refusal(rt, why),
    }?;
    show::comma(rt)
}

fn escr(rt: &impl Print, r: Result<ClockRef, Refusal>) -> io::Result<()> {
    match r {
        Ok(c) => {
            show::number(rt, 0)?;
            show::two(rt, c.base(), c.extension() as u64)
        }
        Err(why) => show::refusal(rt, why),
    }
}

// ---- the headers

fn heads(rt: &impl Print, bytes: &[u8]) -> io::Result<()> {
    head(rt, pes::from_bytes(bytes))?;
    stream_id(rt, pes::stream_id(bytes))?;
    length(rt, pes::pes_packet_length(bytes))?;
    contents(rt, pes::contents(bytes))
}

fn parts(rt: &impl Print, bytes: &[u8]) -> io::Result<()> {
    part(rt, pes::contents_part(bytes))?;
    payload_at(rt, pes_header::payload_at(bytes))?;
    part(rt, header_object::payload(bytes))
}

fn parsed(rt: &impl Print, contents: &[u8]) -> io::Result<()> {
    pts_dts(rt, contents::pts_dts(contents))?;
    escr(rt, contents::escr(contents))
}

// The fields can be asked of parsed contents alone.
fn fields(rt: &impl Print, bytes: &[u8]) -> io::Result<()> {
    match pes::contents(bytes) {
        Ok(PesContents::Payload(_)) => show::words(rt, b" bare"),
        Ok(PesContents::Parsed(e)) => parsed(rt, e.of(bytes)),
        Err(why) => show::refusal(rt, why),
    }?;
    show::end(rt)
}

fn header(rt: &impl Print, name: &[u8], bytes: &[u8]) -> io::Result<()> {
    show::words(rt, name)?;
    heads(rt, bytes)?;
    parts(rt, bytes)?;
    fields(rt, bytes)
}

pub fn run(rt: &impl Print) -> io::Result<()> {
    // that of the lister's example, with two bytes after it
    header(
        rt,
        b"header lister",
        b"\x00\x00\x01\xE0\x00\x00\x80\x80\x05\x21\x00\x01\x00\x01\xFF\xFF",
    )?;
    // PTS 90,000, DTS 1, an ESCR of base 1 and extension 2; three bytes after it
    header(
        rt,
        b"header clocked",
        b"\x00\x00\x01\xE5\x00\x00\x80\xE0\x10\x31\x00\x05\xBF\x21\x11\x00\x01\x00\x03\xC4\x00\x04\x00\x0C\x05\xA1\xA2\xA3",
    )?;
    // an id that carries bare payload, of four bytes
    header(
        rt,
        b"header bare",
        b"\x00\x00\x01\xBE\x00\x04\xA1\xA2\xA3\xA4",
    )?;
    // 3 to 8, each with the fault of the next number too: five bytes that begin with no start code
    header(rt, b"header short", b"\x00\x00\x02\xE0\x00")?;
    // no start code, and one byte of contents
    header(
        rt,
        b"header bad_start_code",
        b"\x00\x00\x02\xE0\x00\x00\x80",
    )?;
    // two bytes of contents, and no check bits
    header(
        rt,
        b"header short_contents",
        b"\x00\x00\x01\xE0\x00\x02\xC0\x00",
    )?;
    // no check bits, and header data of five bytes where none are
    header(
        rt,
        b"header bad_check_bits",
        b"\x00\x00\x01\xE0\x00\x03\xC0\x80\x05",
    )?;
    // header data of five bytes where four are, and PTS and DTS flagged
    header(
        rt,
        b"header header_past_buffer",
        b"\x00\x00\x01\xE0\x00\x07\x80\xC0\x05\x31\x00\x01\x00",
    )?;
    // PTS and DTS are flagged, ten bytes, and the header data are nine
    header(
        rt,
        b"header fields_past_header",
        b"\x00\x00\x01\xC3\x00\x0C\x80\xC0\x09\x31\x00\x01\x00\x01\x11\x00\x01\x02",
    )
}
