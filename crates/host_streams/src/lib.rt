// The library's second part for a host of another language: the entries that keep a stream's state between calls. Words and out
// numbers are those of the crate host.
#![tactic(auto)]

ghost use Rattle.std.specs.Prelude.{◌≡◌, true, []};
ghost use Rattle.bits.specs.Answer.{answer, first_of};
ghost use Rattle.bits.specs.Refused.{refused};
ghost use Rattle.machine.specs.Step.{not_taken};

use bits::Refusal;

pub mod of_gather;
pub mod of_machine;
pub mod of_writer;

// What a row that stands for no state is refused with, beside a packet: the store refuses it as the machine does.
#[tactic(auto, using(crate::proofs::Rows::values_none), unfolding(machine::specs::Step::not_taken, packet::specs::Packet::not_packet))]
fn strayed(packet: &[u8]) -> Refusal
    ensures { refused result ≡ answer (first_of (not_taken packet.now true [])) [] }
{
    machine::strayed(packet)
}
