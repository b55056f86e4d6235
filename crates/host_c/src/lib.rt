// The library's first part for C: each entry of the crate host is exported by its name, with the same promise. A slice is a pointer and
// a length there, a number that is lent a pointer (include/clomaverift.h).
#![tactic(auto)]

pub mod of_adaptation;
pub mod of_contents;
pub mod of_control;
pub mod of_packet;
pub mod of_pes;
pub mod of_timestamp;
