// A step over a lent state. A reference to a struct is made here alone: a local of the function's own is lent, and returned as it was left.
use machine::{Machine, Stepped};

pub fn step(m: Machine, packet: &[u8], log: &mut [u8]) -> Stepped {
    let mut own = m;
    let verdict = in_place::step_in_place(&mut own, packet, log);
    Stepped {
        verdict,
        machine: own,
    }
}
