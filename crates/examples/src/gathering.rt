// The gathering store: a line for each event, with the number and the fields of the state after it and the bytes so far.
use crate::machines::{ENTRIES, LOG};
use crate::{machines, packets, show};
use event_log::Event;
use gather::{Gathered, Gathering, Lies};
use machine::Machine;
use std::io;

// ---- lines

fn lying(rt: &impl Print, lies: Lies) -> io::Result<()> {
    match lies {
        Lies::Packet(place) => show::number(rt, place as u64),
        Lies::Store => show::number(rt, 255),
    }
}

fn answer(rt: &impl Print, s: Gathered) -> io::Result<()> {
    let v = s.verdict;
    let g = s.gathering;
    let opened = g.opened;
    let lies = g.lies;
    show::verdict(rt, v)?;
    show::two(rt, opened as u64, g.count as u64)?;
    lying(rt, lies)?;
    show::comma(rt)
}

fn so_far<'a>(rt: &impl Print, g: Gathering, packet: &'a [u8], store: &'a [u8]) -> io::Result<()> {
    show::bytes(rt, gather::bytes(g, packet, store))?;
    show::end(rt)
}

// ---- calls

fn take(
    rt: &impl Print,
    g: Gathering,
    packet: &[u8],
    e: Event,
    store: &mut [u8],
) -> io::Result<Gathering> {
    show::words(rt, b"gather")?;
    machines::event(rt, e)?;
    show::comma(rt)?;
    let s = gather::gather(g, packet, e, store);
    answer(rt, s)?;
    let next = s.gathering;
    so_far(rt, next, packet, store)?;
    Ok(next)
}

// The event at a place of the log, with its packet.
fn entry(
    rt: &impl Print,
    g: Gathering,
    stream: &[u8],
    log: &[u8; LOG],
    at: usize,
    store: &mut [u8],
) -> io::Result<Gathering> {
    match event_log::entry_at(log, at) {
        Ok(e) => take(rt, g, packets::packet(stream, e.index), e, store),
        Err(_) => Ok(g),
    }
}

fn entries(rt: &impl Print, stream: &[u8], log: &[u8; LOG], store: &mut [u8]) -> io::Result<()> {
    let mut g = Gathering::new();
    for i in 0..ENTRIES {
        g = entry(rt, g, stream, log, i * 8, store)?;
    }
    Ok(())
}

// The first unit of the example has 354 bytes.
pub fn run(rt: &impl Print, stream: &[u8]) -> io::Result<()> {
    let mut log = [0u8; LOG];
    machine::run(Machine::new(), packets::three(stream), &mut log);
    let mut store = [0u8; 354];
    entries(rt, stream, &log, &mut store)
}
