// A line: words, then numbers, in groups between commas.
use bits::{Refusal, wide};
use std::io;

pub fn words(rt: &impl Print, text: &[u8]) -> io::Result<()> {
    rt.write_all(text)
}

pub fn number(rt: &impl Print, n: u64) -> io::Result<()> {
    print!(rt; " {n}")
}

pub fn two(rt: &impl Print, m: u64, n: u64) -> io::Result<()> {
    number(rt, m)?;
    number(rt, n)
}

// The number of a refusal, and the numbers named with it.
pub fn refusal(rt: &impl Print, r: Refusal) -> io::Result<()> {
    number(rt, wide(r.number()))?;
    match r {
        Refusal::MarkerBitNotSet { bit_number } => number(rt, wide(bit_number)),
        Refusal::IncorrectPrefixBits { expected, actual } => two(rt, wide(expected), wide(actual)),
        _ => Ok(()),
    }
}

// 0, or a refusal.
pub fn verdict(rt: &impl Print, v: Result<(), Refusal>) -> io::Result<()> {
    match v {
        Ok(()) => number(rt, 0),
        Err(r) => refusal(rt, r),
    }
}

// Bytes: how many, and the first.
pub fn bytes(rt: &impl Print, b: &[u8]) -> io::Result<()> {
    number(rt, b.len() as u64)?;
    if 0 < b.len() {
        number(rt, wide(b[0]))?;
    }
    Ok(())
}

pub fn comma(rt: &impl Print) -> io::Result<()> {
    words(rt, b",")
}

pub fn end(rt: &impl Print) -> io::Result<()> {
    words(rt, b"\n")
}
