// Runs the examples of the request that are not proved, the object `PesHeader` and the step over a lent state, and prints a line for each
// answer. README.md says what the numbers of a line are, and the file stdout has what must come out.
#![tactic(auto)]

mod gathering;
mod header_object;
mod headers;
mod log_size;
mod machines;
mod own_state;
mod packets;
mod repeats;
mod show;
mod timestamps;

use std::io;

fn main(rt: HostRuntime) -> io::Result<()> {
    timestamps::run(&rt)?;
    headers::run(&rt)?;
    let stream = packets::stream();
    machines::run(&rt, &stream)?;
    repeats::run(&rt)?;
    gathering::run(&rt, &stream)?;
    log_size::run(&rt)
}
