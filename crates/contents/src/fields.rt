// Where each flagged field begins, or would; where an extension begins, after them; and where the payload begins. In a file of its own,
// since but for its case its name is that of `places`.
#[derive(Clone, Copy, Debug, PartialEq, Eq)]
pub struct Places {
    pub escr: usize,
    pub es_rate: usize,
    pub dsm_trick_mode: usize,
    pub additional_copy_info: usize,
    pub previous_pes_packet_crc: usize,
    pub pes_extension: usize,
    pub payload: usize,
}
