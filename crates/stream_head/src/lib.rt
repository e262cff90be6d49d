// A record's header read as two overlapping words, octets 0 to 3 and octets 3 to 6: a field fault told by masks, and the usual
// record. What the octets are is stream_spec's Layout; who needs single fields reads them with stream_record::read_header.
#![tactic(auto)]

mod masks;
mod usual;

pub use masks::{breaks, must_be_zero};
pub use usual::is_usual;

// The bits of a header that must be zero: in octets 0 to 3, and in octets 3 to 6.
#[derive(Clone, Copy, Debug, PartialEq, Eq)]
pub struct Zeros {
    pub low: u32,
    pub high: u32,
}

// Octets 0 to 3 as one number: TID and TDEST stand from bit 8 on, the low octet of TKEEP from bit 24 on.
const PAIR: u32 = 0x100;

const KEEP_LOW: u32 = 0x100_0000;

// Octets 3 to 6 as one number: TKEEP is bits 0 to 15 (its low octet bits 0 to 7), TSTRB is bits 16 to 31. A mask is below
// MASK, and times BOTH_MASKS it stands in both.
const OCTET: u32 = 0x100;

const MASK: u32 = 0x1_0000;

const BOTH_MASKS: u32 = 0x1_0001;
