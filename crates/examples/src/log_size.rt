// How big a log must be: packets that need 8 bytes for each packet and each start flag, with a log of so many bytes and with one of an entry
// less; all by one call, and one a call.
ghost use Rattle.std.specs.Prelude.{◌≡◌, ◌+◌, ◌*◌, ◌<◌};
ghost use Rattle.bits.specs.Answer.{truth};
ghost use Rattle.bounds.specs.Reaching.{eventful};

use crate::show;
use bits::{copy_at, part};
use machine::{Machine, Stepped};
use std::io;

// The most packets, their bytes, and the longest log.
const MOST: usize = 3000;

const BYTES: usize = 564000;

const LOG: usize = 32008;

// ---- packets

// The second byte: the start flag, and the high bits of PID 256.
fn flags(start: bool) -> u8
    ensures { result ≡ 0x40 * truth start + 1 }
{
    if start {
        return 0x41;
    }
    0x01
}

// A packet of the proof: its payload begins with the header of a unit, and its counter is the number modulo 16.
fn packet(start: bool, counter: usize) -> [u8; 188]
    ensures { result ≡ eventful start counter }
{
    let mut p = [0xFFu8; 188];
    copy_at(
        b"\x47\x01\x00\x10\x00\x00\x01\xE0\x00\x00\x80\x00\x00",
        &mut p,
        0,
    );
    p[1] = flags(start);
    p[3] = 0x10 + (counter % 16) as u8;
    p
}

// Zeros, with room for the most packets: made apart, so that no other proof has them written out.
fn zeros() -> [u8; BYTES] {
    [0; BYTES]
}

// So many packets, of which so many, the first ones, have the start flag; and the counter of the very first.
#[derive(Clone, Copy)]
struct Row {
    starts: usize,
    packets: usize,
    counter: usize,
}

fn nth(row: Row, i: usize) -> [u8; 188]
    requires { i < 3000 }
{
    packet(i < row.starts, row.counter % 16 + i)
}

fn fill(row: Row, bytes: &mut [u8]) {
    for i in 0..MOST {
        copy_at(&nth(row, i), bytes, i * 188);
    }
}

// ---- calls

fn line(rt: &impl Print, call: &[u8], from: &[u8], row: Row, log: &[u8]) -> io::Result<()> {
    show::words(rt, call)?;
    show::words(rt, from)?;
    show::two(rt, row.starts as u64, row.packets as u64)?;
    show::number(rt, log.len() as u64)?;
    show::comma(rt)
}

fn after(rt: &impl Print, m: Machine) -> io::Result<()> {
    show::two(rt, m.taken as u64, m.place as u64)?;
    show::end(rt)
}

// All by one call.
fn run_all(
    rt: &impl Print,
    from: &[u8],
    m: Machine,
    row: Row,
    bytes: &[u8],
    log: &mut [u8],
) -> io::Result<()> {
    line(rt, b"log_size run ", from, row, log)?;
    let r = machine::run(m, bytes, log);
    let v = r.verdict;
    let ended = r.ended;
    show::verdict(rt, v)?;
    show::number(rt, r.packets as u64)?;
    show::verdict(rt, ended)?;
    show::comma(rt)?;
    after(rt, r.machine)
}

fn step_one(s: Stepped, row: Row, i: usize, log: &mut [u8]) -> Stepped
    requires { i < 3000 }
{
    let packets = row.packets;
    if packets <= i {
        return s;
    }
    let m = s.machine;
    machine::step(m, &nth(row, i), log)
}

// One a call, and the answer to the last.
fn stepped(m: Machine, row: Row, log: &mut [u8]) -> Stepped {
    let mut s = Stepped {
        verdict: Ok(()),
        machine: m,
    };
    for i in 0..MOST {
        s = step_one(s, row, i, log);
    }
    s
}

fn step_all(rt: &impl Print, from: &[u8], m: Machine, row: Row, log: &mut [u8]) -> io::Result<()> {
    line(rt, b"log_size step ", from, row, log)?;
    let s = stepped(m, row, log);
    let v = s.verdict;
    show::verdict(rt, v)?;
    show::comma(rt)?;
    after(rt, s.machine)
}

// Both ways, with a log of so many bytes.
fn both(
    rt: &impl Print,
    from: &[u8],
    m: Machine,
    row: Row,
    bytes: &[u8],
    log: &mut [u8],
    room: usize,
) -> io::Result<()> {
    if log.len() < room {
        return Ok(());
    }
    run_all(rt, from, m, row, bytes, &mut log[0..room])?;
    step_all(rt, from, m, row, &mut log[0..room])
}

fn show_row(
    rt: &impl Print,
    from: &[u8],
    m: Machine,
    row: Row,
    enough: usize,
    short: usize,
) -> io::Result<()> {
    let packets = row.packets;
    if MOST < packets {
        return Ok(());
    }
    let size = packets * 188;
    let mut bytes = zeros();
    fill(row, &mut bytes);
    let mut log = [0u8; LOG];
    both(rt, from, m, row, part(&bytes, 0, size), &mut log, enough)?;
    both(rt, from, m, row, part(&bytes, 0, size), &mut log, short)
}

fn of(starts: usize, packets: usize, counter: usize) -> Row {
    Row {
        starts,
        packets,
        counter,
    }
}

// A stream from its first packet on, in a mode.
fn from_first(rt: &impl Print, from: &[u8], m: Machine) -> io::Result<()> {
    show_row(rt, from, m, of(1, 1, 0), 16, 8)?;
    show_row(rt, from, m, of(1, 7, 0), 64, 56)?;
    show_row(rt, from, m, of(5, 5, 0), 80, 72)?;
    show_row(rt, from, m, of(1000, 3000, 0), 32000, 31992)
}

// The standard mode after one packet with counter 5 and no start flag: the next one is a break, and the stream was not announced.
fn from_waiting(rt: &impl Print) -> io::Result<()> {
    let mut log = [0u8; 0];
    let s = machine::step(Machine::standard(), &packet(false, 5), &mut log);
    let m = s.machine;
    show_row(rt, b"waiting", m, of(1, 1, 7), 24, 16)?;
    show_row(rt, b"waiting", m, of(1, 7, 7), 72, 64)?;
    show_row(rt, b"waiting", m, of(5, 5, 7), 88, 80)?;
    show_row(rt, b"waiting", m, of(1000, 3000, 7), 32008, 32000)
}

pub fn run(rt: &impl Print) -> io::Result<()> {
    from_first(rt, b"crate", Machine::new())?;
    from_first(rt, b"standard", Machine::standard())?;
    from_waiting(rt)
}
