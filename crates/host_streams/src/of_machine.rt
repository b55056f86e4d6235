// The event machine and its log. The host keeps a state as a row of numbers and lends it (machine::row).
ghost use Rattle.std.specs.Prelude.{◌≡◌, [], ◌∷◌};
ghost use Rattle.event_log.specs.Entry.{event_values, read_entry};
ghost use Rattle.machine.specs.declared.Mode.{Mode};
ghost use Rattle.machine.specs.Step.{fresh};
ghost use Rattle.host.specs.Reports.{Reports};
ghost use Rattle.machine.specs.Row.{row_of, row_step, row_step_of, row_run, row_run_of};

use crate::strayed;
use bits::Refusal;
use event_log::Event;
use host::told::{DONE, Told, report, report_four, word};
use machine::{Machine, row};
use packet::SIZE;

// The row of a machine before its first packet, with an empty log, in the crate's mode (Machine::new): 0, 0, 255, 0, 0, 0
pub fn cmv_machine_fresh(state: &mut [u64; 7])
    ensures { state.new ≡ row_of (fresh Mode.Crate) }
{
    row::write(Machine::new(), state);
}

// The same in the standard mode (Machine::standard): 1, 0, 255, 0, 0, 0
pub fn cmv_machine_standard(state: &mut [u64; 7])
    ensures { state.new ≡ row_of (fresh Mode.Standard) }
{
    row::write(Machine::standard(), state);
}

// machine::step over a lent row
#[tactic(auto, using(crate::proofs::Rows::step_laws), unfolding(machine::specs::Row::row_step_of))]
pub fn cmv_machine_step(state: &mut [u64; 7], packet: &[u8], log: &mut [u8]) -> u32
    ensures { row_step result state.new log.new
        ≡ row_step_of state.old packet.now log.old }
{
    let Some(m) = row::read(state) else {
        return word(strayed(packet));
    };
    let s = machine::step(m, packet, log);
    match s.verdict {
        Ok(()) => {
            row::write(s.machine, state);
            DONE
        }
        Err(e) => word(e),
    }
}

// machine::run over a lent row: how many packets were taken, and the number that the next one was refused with, 0 where all were taken
#[tactic(auto, using(crate::proofs::Rows::run_laws), unfolding(machine::specs::Row::row_run_of, machine::specs::Run::not_run))]
pub fn cmv_machine_run(
    state: &mut [u64; 7],
    bytes: &[u8],
    log: &mut [u8],
    taken: &mut u64,
    ended: &mut u64,
) -> u32
    ensures { row_run result state.new log.new taken.new ended.new
        ≡ row_run_of state.old bytes.now log.old taken.old ended.old }
{
    let Some(m) = row::read(state) else {
        if bytes.len() % SIZE != 0 {
            return word(Refusal::WrongLength);
        }
        return word(Refusal::OutOfRange);
    };
    let r = machine::run(m, bytes, log);
    match r.verdict {
        Ok(()) => {
            row::write(r.machine, state);
            *taken = r.packets as u64;
            *ended = report(r.ended) as u64;
            DONE
        }
        Err(e) => word(e),
    }
}

// An entry of the log.
#[derive(Clone, Copy)]
struct Entry(Event);

impl Told<4> for Entry {
    ghost values = { λ entry. event_values entry.0 };

    fn told(self) -> [u64; 4] {
        let e = self.0;
        [
            e.kind as u64,
            e.index as u64,
            e.place as u64,
            e.length as u64,
        ]
    }
}

// event_log::entry_at
pub fn cmv_log_entry_at(
    log: &[u8],
    at: usize,
    kind: &mut u64,
    index: &mut u64,
    place: &mut u64,
    length: &mut u64,
) -> u32
    ensures { Reports (read_entry log.now at) result
        (kind.old ∷ index.old ∷ place.old ∷ length.old ∷ [])
        (kind.new ∷ index.new ∷ place.new ∷ length.new ∷ []) }
{
    let entry = event_log::entry_at(log, at).map(Entry);
    report_four(entry, kind, index, place, length)
}
