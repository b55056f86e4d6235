// Answers the queries of standard input by the library's host entries. README.md says what a query and an answer look like.
#![tactic(auto)]

mod answers;
mod clocks;
mod fields;
mod heads;
mod input;
mod numbers;
mod output;
mod packets;
mod parsed;
mod timestamps;

use answers::ask;
use input::Line;
use page::Page;
use std::io;
use std::io::{Read, Write};

// How much is read at a time.
const BLOCK: usize = 4096;

// Answers a line.
fn reply(line: &Line, page: &mut Page<impl Write>) {
    match line.query().and_then(ask) {
        Some(a) => output::told(page, &a),
        None => output::unknown(page),
    }
}

fn take(b: u8, line: &mut Line, page: &mut Page<impl Write>) {
    if b == b'\n' {
        reply(line, page);
        line.clear();
    } else {
        line.push(b);
    }
}

// Answers line after line. What is read may be of any length: a line goes on in the next block. A read that fails ends the input, and
// nothing more is read once the answers cannot be written.
fn lines(input: &mut impl Read, page: &mut Page<impl Write>) {
    let mut line = Line::new();
    let mut block = [0u8; BLOCK];
    // A proved loop ends, and nothing says that the input does: no run uses up so many turns.
    for _ in 0..u64::MAX {
        let count = input.read(&mut block).unwrap_or(0);
        for b in &block[..count] {
            take(*b, &mut line, page);
        }
        if count == 0 || page.out.error.is_some() {
            break;
        }
    }
    // The last line may have no line end.
    if !line.is_empty() {
        reply(&line, page);
    }
}

fn main(rt: HostRuntime) -> io::Result<()> {
    let mut page = Page::new(io::writer(&rt));
    lines(&mut rt.reader(), &mut page);
    page.flush();
    page.out.error.map_or(Ok(()), Err)
}
