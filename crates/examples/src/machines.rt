// The machine, step by step over a lent state and by one call: a line for each call, with its answer and the fields of the state after it, then each entry of the log.
use crate::{own_state, packets, show};
use bits::{copy_at, part, wide};
use control::ContinuityCounter;
use event_log::Event;
use machine::{Machine, Mode, Phase, Repeat};
use std::io;

// Room for one entry more than the example has.
pub const ENTRIES: usize = 6;

pub const LOG: usize = 48;

// ---- lines

fn mode(rt: &impl Print, m: Mode) -> io::Result<()> {
    match m {
        Mode::Crate => show::number(rt, 0),
        Mode::Standard => show::number(rt, 1),
    }
}

fn phase(rt: &impl Print, p: Phase) -> io::Result<()> {
    match p {
        Phase::Begin => show::number(rt, 0),
        Phase::Started => show::number(rt, 1),
        Phase::IgnoreRest => show::number(rt, 2),
    }
}

fn last(rt: &impl Print, l: Option<ContinuityCounter>) -> io::Result<()> {
    match l {
        None => show::number(rt, 255),
        Some(counter) => show::number(rt, wide(counter.count())),
    }
}

fn again(rt: &impl Print, r: Repeat) -> io::Result<()> {
    match r {
        Repeat::Barred => show::number(rt, 0),
        Repeat::Open => show::number(rt, 1),
        Repeat::Spent => show::number(rt, 2),
    }
}

pub fn event(rt: &impl Print, e: Event) -> io::Result<()> {
    show::two(rt, wide(e.kind), e.index as u64)?;
    show::two(rt, wide(e.place), wide(e.length))
}

// The entry at a place of the log, if there is one: bytes of 0 are none.
fn entry(rt: &impl Print, log: &[u8; LOG], at: usize) -> io::Result<()> {
    if let Ok(e) = event_log::entry_at(log, at) {
        show::comma(rt)?;
        event(rt, e)?;
    }
    Ok(())
}

fn entries(rt: &impl Print, log: &[u8; LOG]) -> io::Result<()> {
    for i in 0..ENTRIES {
        entry(rt, log, i * 8)?;
    }
    Ok(())
}

fn state(rt: &impl Print, m: Machine, log: &[u8; LOG]) -> io::Result<()> {
    let o = m.mode;
    let p = m.phase;
    let l = m.last;
    let r = m.again;
    mode(rt, o)?;
    phase(rt, p)?;
    last(rt, l)?;
    again(rt, r)?;
    show::number(rt, m.announced as u64)?;
    show::two(rt, m.taken as u64, m.place as u64)?;
    entries(rt, log)?;
    show::end(rt)
}

// ---- calls

pub fn step(
    rt: &impl Print,
    call: &[u8],
    m: Machine,
    packet: &[u8],
    log: &mut [u8; LOG],
) -> io::Result<Machine> {
    let s = own_state::step(m, packet, log);
    let v = s.verdict;
    let after = s.machine;
    show::words(rt, call)?;
    show::verdict(rt, v)?;
    state(rt, after, log)?;
    Ok(after)
}

// The four packets, one a call.
fn steps(rt: &impl Print, call: &[u8], m: Machine, stream: &[u8]) -> io::Result<()> {
    let mut log = [0u8; LOG];
    let mut state = m;
    for i in 0..4 {
        state = step(rt, call, state, packets::packet(stream, i), &mut log)?;
    }
    Ok(())
}

// Packets, all by one call.
pub fn all(rt: &impl Print, call: &[u8], m: Machine, bytes: &[u8]) -> io::Result<()> {
    let mut log = [0u8; LOG];
    let r = machine::run(m, bytes, &mut log);
    let v = r.verdict;
    let ended = r.ended;
    show::words(rt, call)?;
    show::verdict(rt, v)?;
    show::number(rt, r.packets as u64)?;
    show::verdict(rt, ended)?;
    state(rt, r.machine, &log)
}

// A packet that is taken, and after it one with no sync byte, which ends the run and is no refusal of it.
fn cut_short(rt: &impl Print, stream: &[u8]) -> io::Result<()> {
    let mut bytes = [0u8; 376];
    copy_at(packets::packet(stream, 0), &mut bytes, 0);
    all(rt, b"run no_sync", Machine::new(), &bytes)
}

// A state that is refused: no entry begins at a place of 3.
fn between_entries() -> Machine {
    Machine {
        mode: Mode::Standard,
        phase: Phase::Started,
        last: None,
        again: Repeat::Spent,
        announced: true,
        taken: 7,
        place: 3,
    }
}

pub fn run(rt: &impl Print, stream: &[u8]) -> io::Result<()> {
    steps(rt, b"step_in_place", Machine::new(), stream)?;
    steps(
        rt,
        b"step_in_place between_entries",
        between_entries(),
        stream,
    )?;
    all(rt, b"run", Machine::new(), packets::three(stream))?;
    cut_short(rt, stream)?;
    all(
        rt,
        b"run between_entries 187_bytes",
        between_entries(),
        part(stream, 0, 187),
    )?;
    all(
        rt,
        b"run between_entries no_bytes",
        between_entries(),
        part(stream, 0, 0),
    )
}
