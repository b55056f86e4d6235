// Timestamps. An answer is shown by its number and values.
use crate::show;
use bits::Refusal;
use std::io;
use timestamp::Timestamp;

fn shown(rt: &impl Print, r: Result<Timestamp, Refusal>) -> io::Result<()> {
    match r {
        Ok(t) => show::two(rt, 0, t.value()),
        Err(why) => show::refusal(rt, why),
    }?;
    show::end(rt)
}

fn constants(rt: &impl Print) -> io::Result<()> {
    show::words(rt, b"timestamp max")?;
    show::number(rt, Timestamp::MAX.value())?;
    show::end(rt)?;
    show::words(rt, b"timestamp timebase")?;
    show::number(rt, Timestamp::TIMEBASE)?;
    show::end(rt)
}

// An easy error: the PTS of a pair has the prefix 0011, and from_pts_bytes wants 0010.
fn pts_of_a_pair(rt: &impl Print) -> io::Result<()> {
    let pts = [0x31, 0x00, 0x05, 0xBF, 0x21];
    show::words(rt, b"timestamp pair from_pts_bytes")?;
    shown(rt, Timestamp::from_pts_bytes(&pts))?;
    show::words(rt, b"timestamp pair from_bytes")?;
    shown(rt, Timestamp::from_bytes(&pts))
}

pub fn run(rt: &impl Print) -> io::Result<()> {
    constants(rt)?;
    pts_of_a_pair(rt)
}
