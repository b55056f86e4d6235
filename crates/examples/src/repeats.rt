// The corners of the standard mode: the packets of each row one by one over a lent state, and all by one call; and a packet with three
// events.
use crate::machines;
use crate::machines::LOG;
use bits::{copy_at, part};
use machine::{Machine, Mode, Phase, Repeat};
use std::io;

// The most packets of a row, and their bytes.
const MOST: usize = 5;

const BYTES: usize = 940;

// A packet by a code. Its low four bits are the counter; the others: 1 a payload, 2 none, 3 a payload and the discontinuity bit, 5 a payload
// that begins with a head, and the start flag.
fn packet(code: u8) -> [u8; 188] {
    let mut p = [0xFF; 188];
    copy_at(b"\x47\x01\x00", &mut p, 0);
    p[3] = code % 64;
    match code / 16 {
        2 => copy_at(b"\xB7\x00", &mut p, 4),
        3 => copy_at(b"\x01\x80", &mut p, 4),
        5 => {
            copy_at(b"\x41", &mut p, 1);
            copy_at(b"\x00\x00\x01\xE0", &mut p, 4)
        }
        _ => (),
    }
    p
}

fn steps(rt: &impl Print, call: &[u8], codes: &[u8]) -> io::Result<()> {
    let mut log = [0u8; LOG];
    let mut state = Machine::standard();
    for i in 0..MOST {
        if i < codes.len() {
            state = machines::step(rt, call, state, &packet(codes[i]), &mut log)?;
        }
    }
    Ok(())
}

// The packet of a code in its place, if the row has it.
fn put(codes: &[u8], i: usize, bytes: &mut [u8]) {
    if i < MOST {
        if i < codes.len() {
            copy_at(&packet(codes[i]), bytes, i * 188);
        }
    }
}

// The bytes of a row's packets.
fn size(codes: &[u8]) -> usize {
    if MOST < codes.len() {
        return 0;
    }
    codes.len() * 188
}

fn all(rt: &impl Print, call: &[u8], codes: &[u8]) -> io::Result<()> {
    let mut bytes = [0u8; BYTES];
    put(codes, 0, &mut bytes);
    put(codes, 1, &mut bytes);
    put(codes, 2, &mut bytes);
    put(codes, 3, &mut bytes);
    put(codes, 4, &mut bytes);
    machines::all(rt, call, Machine::standard(), part(&bytes, 0, size(codes)))
}

fn row(rt: &impl Print, call: &[u8], codes: &[u8]) -> io::Result<()> {
    steps(rt, call, codes)?;
    all(rt, call, codes)
}

// Within a unit whose stream was not announced, at a place of the log.
fn not_announced(place: usize) -> Machine {
    Machine {
        mode: Mode::Standard,
        phase: Phase::Started,
        last: None,
        again: Repeat::Barred,
        announced: false,
        taken: 7,
        place,
    }
}

// A start there has three events. The log has room for two of them after the first place, and for three after the second.
fn three(rt: &impl Print) -> io::Result<()> {
    let mut log = [0u8; LOG];
    let start = packet(0x55);
    machines::step(
        rt,
        b"standard room_for_two",
        not_announced(32),
        &start,
        &mut log,
    )?;
    machines::step(
        rt,
        b"standard room_for_three",
        not_announced(24),
        &start,
        &mut log,
    )?;
    Ok(())
}

pub fn run(rt: &impl Print) -> io::Result<()> {
    row(rt, b"standard P5_P5_P5_P5_P5", b"\x15\x15\x15\x15\x15")?;
    row(rt, b"standard P5_A5_P5", b"\x15\x25\x15")?;
    row(rt, b"standard A5_P5", b"\x25\x15")?;
    row(rt, b"standard P5_P5_P6_P6", b"\x15\x15\x16\x16")?;
    row(rt, b"standard P5_D9_P9_P10", b"\x15\x39\x19\x1A")?;
    row(rt, b"standard P5_D5", b"\x15\x35")?;
    row(rt, b"standard P5_P5_A5_P5", b"\x15\x15\x25\x15")?;
    row(rt, b"standard P5_S5", b"\x15\x55")?;
    row(rt, b"standard P5_P9_S10", b"\x15\x19\x5A")?;
    row(rt, b"standard P5_S9", b"\x15\x59")?;
    row(rt, b"standard P5_S5_S5", b"\x15\x55\x55")?;
    three(rt)
}
