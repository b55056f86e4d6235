// A stream's state where its owner keeps it: each function here is thin over the one by value, and leaves in the lent state what that one
// returns.
#![tactic(auto)]

ghost use Rattle.std.specs.Prelude.{◌≡◌};
ghost use Rattle.machine.specs.Step.{verdict_number, step_of, log_of};
ghost use Rattle.machine.specs.Run.{reported, report_of, ran_log};
ghost use Rattle.gather.specs.Gather.{store_number, gather_of, store_of};

use bits::Refusal;
use event_log::Event;
use gather::Gathering;
use machine::{Machine, Report};

// One packet: the lent machine is advanced. A refusal leaves it.
pub fn step_in_place(m: &mut Machine, packet: &[u8], log: &mut [u8]) -> Result<(), Refusal>
    ensures { (verdict_number result ≡ (step_of m.old packet.now log.old).number)
        × (m.new ≡ (step_of m.old packet.now log.old).machine)
        × (log.new ≡ log_of m.old packet.now log.old) }
{
    let s = machine::step(*m, packet, log);
    *m = s.machine;
    s.verdict
}

// Whole packets, until one is refused: the lent machine is then as before that packet. A refusal of the run itself leaves it.
pub fn run_in_place(m: &mut Machine, bytes: &[u8], log: &mut [u8]) -> Report
    ensures { (reported result ≡ report_of m.old bytes.now log.old)
        × (m.new ≡ (report_of m.old bytes.now log.old).machine)
        × (log.new ≡ ran_log m.old bytes.now log.old) }
{
    let s = machine::run(*m, bytes, log);
    *m = s.machine;
    s
}

// One event of a packet: the lent gathering state is moved on. A refusal leaves it, 20 apart.
pub fn gather_in_place(
    g: &mut Gathering,
    packet: &[u8],
    event: Event,
    store: &mut [u8],
) -> Result<(), Refusal>
    ensures { (store_number result ≡ (gather_of g.old packet.now event store.old).number)
        × (g.new ≡ (gather_of g.old packet.now event store.old).gathering)
        × (store.new ≡ store_of g.old packet.now event store.old) }
{
    let s = gather::gather(*g, packet, event, store);
    *g = s.gathering;
    s.verdict
}
