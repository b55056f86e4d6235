// The library's second part for C: each entry of the crate host_streams is exported by its name, with the same promise. A slice is a
// pointer and a length there, a row a pointer to its first number (include/clomaverift.h).
#![tactic(auto)]

pub mod of_gather;
pub mod of_machine;
pub mod of_writer;
