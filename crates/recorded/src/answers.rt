// From a query to the host entry that answers it.
ghost use Rattle.std.specs.Prelude.{◌≤◌};

use crate::{clocks, fields, heads, packets, parsed, timestamps};

// The out numbers of an entry, in its order.
#[derive(Clone, Copy, Default)]
pub struct Out {
    pub a: u64,
    pub b: u64,
    pub c: u64,
    pub d: u64,
    pub e: u64,
}

// What an entry returned, and its out numbers: as many of the values as it has.
#[derive(Clone, Copy)]
pub struct Answer {
    pub word: u32,
    pub values: [u64; 5],
    pub count: usize,
    ghost within: { count ≤ 5 },
}

// How many out numbers an entry has.
fn count(code: u8) -> usize
    ensures { result ≤ 5 }
{
    match code {
        0x21 | 0x40 | 0x50 => 0,
        0x10 | 0x11 | 0x18 | 0x19 => 2,
        0x26 | 0x27 | 0x29 | 0x2a => 2,
        0x33 | 0x34 | 0x36 | 0x37 | 0x38 | 0x3a => 2,
        0x41 | 0x42 | 0x59 | 0x5f | 0x60 => 2,
        0x43 => 3,
        0x5b => 4,
        0x58 => 5,
        _ => 1,
    }
}

// Each module has a range of codes, and gives the word that the entry returned. None where code or arguments are those of no entry.
pub fn ask(query: &[u8]) -> Option<Answer> {
    let (code, args) = query.split_first()?;
    let mut out = Out::default();
    let word = match *code {
        0x01..=0x0f => timestamps::word(*code, args, &mut out),
        0x10..=0x19 => clocks::word(*code, args, &mut out),
        0x20..=0x2f => packets::word(*code, args, &mut out),
        0x30..=0x3f => fields::word(*code, args, &mut out),
        0x40..=0x4f => heads::word(*code, args, &mut out),
        0x50..=0x6f => parsed::word(*code, args, &mut out),
        _ => None,
    }?;
    let Out { a, b, c, d, e } = out;
    Some(Answer {
        word,
        values: [a, b, c, d, e],
        count: count(*code),
    })
}
