// The library as a host of another language calls it: functions on numbers and byte slices. An entry returns one word: the
// number of its answer and, on a refusal, 256 times the first and 65,536 times the second number named with it. On 0, and only
// then, it writes its out numbers.
#![tactic(auto, using(crate::proofs::Laws::host_laws))]

pub mod of_adaptation;
pub mod of_contents;
pub mod of_control;
pub mod of_packet;
pub mod of_pes;
pub mod of_timestamp;
pub mod told;
