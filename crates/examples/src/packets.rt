// The three packets of the request's example of the lister, and one that is refused.
use bits::{copy_at, part};

pub const STREAM: usize = 752;

// FF but for the starts of three packets: a unit with a PTS of 0, more of it, another such unit after a break of the counter. The fourth
// has no sync byte.
pub fn stream() -> [u8; STREAM] {
    let mut s = [0xFF; STREAM];
    copy_at(
        b"\x47\x41\x00\x10\x00\x00\x01\xE0\x00\x00\x80\x80\x05\x21\x00\x01\x00\x01",
        &mut s,
        0,
    );
    copy_at(b"\x47\x01\x00\x11", &mut s, 188);
    copy_at(
        b"\x47\x41\x00\x13\x00\x00\x01\xE0\x00\x00\x80\x80\x05\x21\x00\x01\x00\x01",
        &mut s,
        376,
    );
    s
}

pub fn packet(stream: &[u8], index: u32) -> &[u8] {
    part(stream, index as usize * 188, 188)
}

// Those of the example.
pub fn three(stream: &[u8]) -> &[u8] {
    part(stream, 0, 564)
}
