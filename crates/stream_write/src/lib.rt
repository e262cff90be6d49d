// Writing a record's octets, as stream_spec's Layout has them: its header, its null lanes, and its user bits. The lanes that
// carry something are written by the crates above, which know what they carry.
#![tactic(auto)]

ghost use Rattle.std.specs.Prelude.{◌≡◌, ◌∷◌, ◌++◌, ◌+◌, ◌≤◌, ◌<◌, length, drop};
ghost use Rattle.words.specs.Splice.{splice};
ghost use Rattle.words.specs.Words.{octets_of_word};
ghost use Rattle.stream_spec.specs.Layout.{bit_of, head_octets, width_most};
ghost use Rattle.stream_write.specs.Write.{header_octets, data_header, null_lanes};

use stream_record::Header;
use stream_record::layout::{FLAGS, HEAD_OCTETS, TDEST, TID, TKEEP, TSTRB};

// A header and the octet behind it as one number: the pair from octet 1 on (bit 8), a mask as TKEEP from octet 3 on (bit 24)
// and as TSTRB from octet 5 on (bit 40), lane 0 in octet 7 (bit 56).
const PAIR: u64 = 0x100;

const BOTH_MASKS: u64 = 0x100_0100_0000;

const LANE_0: u64 = 0x100_0000_0000_0000;

// The header of the record at the front of `out`.
pub fn write_header(out: &mut [u8], h: Header)
    requires { (head_octets ≤ length out.old) × (h.flags < 0x100) × (h.keep < 0x10000) × (h.strb < 0x10000) }
    ensures { out.new ≡ header_octets h.flags h.tid h.tdest h.keep h.strb ++ drop head_octets out.old }
{
    out[FLAGS] = h.flags as u8;
    out[TID] = h.tid;
    out[TDEST] = h.tdest;
    words::store(out, TKEEP, h.keep as u16);
    words::store(out, TSTRB, h.strb as u16);
}

// The header of a record with data on its first n lanes, as one word: eight octets are written, the last of which is 0.
pub fn write_data_header(out: &mut [u8], last: bool, pair: u32, n: usize)
    requires { (8 ≤ length out.old) × (pair < 0x10000) × (n ≤ width_most) }
    ensures { out.new ≡ data_header (bit_of last) pair n ++ (0 ∷ drop 8 out.old) }
{
    let lanes = (1u64 << n) - 1;
    words::store(
        out,
        0,
        u64::from(last) + PAIR * u64::from(pair) + BOTH_MASKS * lanes,
    );
}

// A whole record of one lane, which is data, as one word. No TLAST.
pub fn write_one(out: &mut [u8], pair: u32, lane: u8)
    requires { (8 ≤ length out.old) × (pair < 0x10000) }
    ensures { out.new ≡ data_header 0 pair 1 ++ (lane ∷ drop 8 out.old) }
{
    words::store(
        out,
        0,
        PAIR * u64::from(pair) + BOTH_MASKS + LANE_0 * u64::from(lane),
    );
}

// Lanes n to v - 1 of the record at the front of `out` are null.
pub fn write_nulls(out: &mut [u8], n: usize, v: usize)
    requires { (n ≤ v) × (head_octets + v ≤ length out.old) }
    ensures { out.new ≡ null_lanes n v out.old }
{
    out[HEAD_OCTETS + n..HEAD_OCTETS + v].fill(0);
}

// User bits in k octets from place `at` on, low octet first.
pub fn write_user(out: &mut [u8], at: usize, user: u64, k: usize)
    requires { at + k ≤ length out.old }
    ensures { out.new ≡ splice at (octets_of_word k user) out.old }
{
    let mut u = user;
    for octet in out[at..at + k].iter_mut() {
        *octet = (u % 0x100) as u8;
        u /= 0x100;
    }
}
