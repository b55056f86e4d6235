// A machine as the row of numbers that a host keeps and lends: mode 0, 1 for Crate and Standard; phase 0, 1, 2 for Begin, Started and
// IgnoreRest; the last counter or 255 for none; 0, 1, 2 for Barred, Open and Spent; whether the stream was announced, 0 or 1; the packets
// taken so far; and the next free place of the log.
ghost use Rattle.std.specs.Prelude.{◌≡◌};
ghost use Rattle.machine.specs.Row.{mode_read, phase_read, last_read, again_read, announced_read, mode_number, phase_number, last_number, again_number, machine_of, row_of};

use crate::{Machine, Mode, Phase, Repeat};
use bits::{Refusal, wide};
use control::ContinuityCounter;

impl TryFrom<u64> for Mode {
    type Error = Refusal;

    ghost try_from_gives = { λ n r. r ≡ mode_read n };

    fn try_from(n: u64) -> Result<Mode, Refusal> {
        match n {
            0 => Ok(Mode::Crate),
            1 => Ok(Mode::Standard),
            _ => Err(Refusal::OutOfRange),
        }
    }
}

impl TryFrom<u64> for Phase {
    type Error = Refusal;

    ghost try_from_gives = { λ n r. r ≡ phase_read n };

    fn try_from(n: u64) -> Result<Phase, Refusal> {
        match n {
            0 => Ok(Phase::Begin),
            1 => Ok(Phase::Started),
            2 => Ok(Phase::IgnoreRest),
            _ => Err(Refusal::OutOfRange),
        }
    }
}

impl TryFrom<u64> for Repeat {
    type Error = Refusal;

    ghost try_from_gives = { λ n r. r ≡ again_read n };

    fn try_from(n: u64) -> Result<Repeat, Refusal> {
        match n {
            0 => Ok(Repeat::Barred),
            1 => Ok(Repeat::Open),
            2 => Ok(Repeat::Spent),
            _ => Err(Refusal::OutOfRange),
        }
    }
}

impl From<Mode> for u64 {
    ghost from_gives = { λ m n. n ≡ mode_number m };

    fn from(m: Mode) -> u64 {
        match m {
            Mode::Crate => 0,
            Mode::Standard => 1,
        }
    }
}

impl From<Phase> for u64 {
    ghost from_gives = { λ p n. n ≡ phase_number p };

    fn from(p: Phase) -> u64 {
        match p {
            Phase::Begin => 0,
            Phase::Started => 1,
            Phase::IgnoreRest => 2,
        }
    }
}

impl From<Repeat> for u64 {
    ghost from_gives = { λ r n. n ≡ again_number r };

    fn from(r: Repeat) -> u64 {
        match r {
            Repeat::Barred => 0,
            Repeat::Open => 1,
            Repeat::Spent => 2,
        }
    }
}

// The last counter that a number stands for, or none, if it stands for something.
fn last_of(n: u64) -> Option<Option<ContinuityCounter>>
    ensures { result ≡ last_read n }
{
    match n {
        255 => Some(None),
        0..=15 => Some(Some(ContinuityCounter::from_byte_four(n as u8))),
        _ => None,
    }
}

fn announced_of(n: u64) -> Option<bool>
    ensures { result ≡ announced_read n }
{
    match n {
        0 => Some(false),
        1 => Some(true),
        _ => None,
    }
}

fn last_number(last: Option<ContinuityCounter>) -> u64
    ensures { result ≡ last_number last }
{
    match last {
        None => 255,
        Some(c) => wide(c.count()),
    }
}

// The machine that a row stands for, if for one.
#[tactic(auto, unfolding(crate::specs::Row::machine_of, crate::specs::Row::strays))]
pub fn read(row: &[u64; 7]) -> Option<Machine>
    ensures { result ≡ machine_of row.now }
{
    let [mode, phase, last, again, announced, taken, place] = *row;
    Some(Machine {
        mode: Mode::try_from(mode).ok()?,
        phase: Phase::try_from(phase).ok()?,
        last: last_of(last)?,
        again: Repeat::try_from(again).ok()?,
        announced: announced_of(announced)?,
        taken: u32::try_from(taken).ok()?,
        place: place as usize,
    })
}

#[tactic(auto, unfolding(crate::specs::Row::row_of))]
pub fn write(m: Machine, row: &mut [u64; 7])
    ensures { row.new ≡ row_of m }
{
    *row = [
        u64::from(m.mode),
        u64::from(m.phase),
        last_number(m.last),
        u64::from(m.again),
        u64::from(m.announced),
        u64::from(m.taken),
        m.place as u64,
    ];
}
