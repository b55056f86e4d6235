// The object `PesHeader`. It holds a slice, so it is made and asked here, and the rest of the program sees plain slices.
use pes_header::PesHeader;

pub fn payload(bytes: &[u8]) -> &[u8] {
    PesHeader::from_bytes(bytes).payload()
}
