// The library's third part for C: each entry of the crate host_whole is exported by its name, with the same promise. A row is a pointer
// to its first number there (include/clomaverift.h).
#![tactic(auto)]

pub mod of_contents;
pub mod of_packet;
pub mod of_pes;
