// Lists the events of the packets on standard input. README.md says what the lines look like.
#![tactic(auto)]

mod lines;
mod listing;

ghost use Rattle.std.specs.Prelude.{◌<◌, ◌≤◌};

use bits::Refusal;
use listing::List;
use std::io;
use std::io::{ErrorKind, Read, Write};
use std::process::ExitCode;

// How much is read at a time.
const BLOCK: usize = 65536;

// Moves the bytes after the whole packets to the start of the block, and gives back how many there are. So a packet that lies whole
// in a block is not copied, and one that crosses blocks is made whole by the next read.
fn keep(block: &mut [u8; BLOCK], filled: usize) -> usize
    requires { filled ≤ BLOCK }
    ensures { result < 188 }
{
    let held = filled % 188;
    block.copy_within(filled - held..filled, 0);
    held
}

// Lists block after block, each read behind the bytes that are held. A read that fails is not the end of the input: the list has no
// last line then. Nothing more is read once the list cannot be written.
fn blocks(
    rt: &impl Eprint,
    input: &mut impl Read,
    list: &mut List<impl Write>,
) -> Result<(), Refusal> {
    let mut block = [0u8; BLOCK];
    let mut held = 0;
    // A proved loop ends, and nothing says that the input does: no run uses up so many turns.
    for _ in 0..u64::MAX {
        let Ok(count) = input.read(&mut block[held..]) else {
            // a message that cannot be written is lost
            let _ = eprintln!(rt; "lister: standard input cannot be read");
            return Ok(());
        };
        if count == 0 {
            return list.end(&block[..held]);
        }
        let filled = held + count;
        list.packets(&block[..filled])?;
        if list.page.out.error.is_some() {
            return Ok(());
        }
        held = keep(&mut block, filled);
    }
    Ok(())
}

// Lists all, and gives back the error of a write that failed.
fn run(rt: &(impl Input + Print + Eprint)) -> io::Result<()> {
    let mut list = List::new(io::writer(rt));
    if let Err(r) = blocks(rt, &mut rt.reader(), &mut list) {
        list.refused(r);
    }
    list.page.flush();
    list.page.out.error.map_or(Ok(()), Err)
}

// A list that cannot be written is said, but where the reader of a pipe has gone.
fn main(rt: HostRuntime) -> ExitCode {
    let Err(e) = run(&rt) else {
        return ExitCode::SUCCESS;
    };
    if e.kind() != ErrorKind::BrokenPipe {
        let _ = eprintln!(rt; "lister: standard output cannot be written");
    }
    ExitCode::FAILURE
}
