// The library's third part for a host of another language: everything that is read of a packet, of a head or of parsed contents, at one
// call. Words and numbers are those of the crate host; a field that is refused has zeros after its word. The bytes are judged once.
#![tactic(auto, using(crate::proofs::Laws::whole_laws))]

pub mod of_contents;
pub mod of_packet;
pub mod of_pes;
mod rows;
