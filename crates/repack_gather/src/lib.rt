// The kept lanes of one record as held items, behind the items that are there: an octet each, and a mark where it is a
// position item. Null lanes are closed up by repack_sieve. Which records are read, and when, is not here. Helpers for
// repack_parse, which has made room for the lanes.
#![tactic(auto)]

ghost use Rattle.std.specs.Prelude.{◌≡◌, [], ◌∷◌, ◌+◌, ◌-◌, ◌*◌, ◌/◌, ◌%◌, ◌^◌, ◌≤◌, ◌<◌, length, get_or, drop, set};
ghost use Rattle.stream_spec.specs.Layout.{head_octets};
ghost use Rattle.repack_scratch.specs.Codes.{mark_bits};
ghost use Rattle.repack_sieve.specs.Kept.{Collected};
ghost use Rattle.repack_gather.specs.Gather.{Clear, Marks};

use repack_scratch::Lanes;
use repack_sieve::Sieve;

// One lane, at place n. Where TKEEP's lowest bit is 0 the place stays, and the next lane is stored over this one.
fn keep_lane(octets: &mut [u8], n: usize, lane: u8, keep: u32) -> usize
    requires { n < length octets.old }
    ensures { Collected 1 keep (lane ∷ []) octets.old n octets.new result }
{
    octets[n] = lane;
    n + (keep % 2) as usize
}

// The octets of the lanes that TKEEP keeps, from place `at` on; answers the place after them. No branch on the mask.
// stays: one loop for this, sift_marked and repack_tags::sift_tagged is no plainer: each step writes arrays of its own, and a
// closure over them needs in its clauses what stands here once.
fn sift_lanes(octets: &mut [u8], at: usize, lanes: &[u8], keep: u32) -> usize
    requires { at + length lanes.now ≤ length octets.old }
    ensures { Collected (length lanes.now) keep lanes.now octets.old at octets.new result }
{
    let mut n = at;
    let mut k = keep;
    for lane in lanes {
        n = keep_lane(octets, n, *lane, k);
        k /= 2;
    }
    n
}

// The kept lanes of a record of so many, of which each is data: in bulk where all are kept, else lane by lane.
pub fn gather_lanes(octets: &mut [u8], at: usize, of: Lanes, lanes: &[u8], keep: u32) -> usize
    requires { (length lanes.now ≡ of.width) × (at + of.width ≤ length octets.old) }
    ensures { Collected of.width keep lanes.now octets.old at octets.new result }
{
    if keep == of.full {
        words::place(octets, at, lanes, of.width, of.width);
        return at + of.width;
    }
    sift_lanes(octets, at, lanes, keep)
}

// All of the w lanes at place `from` of a take. Sixteen octets are moved where the take has them: what stands behind the
// lanes is written over by the next record's.
fn gather_all(octets: &mut [u8], at: usize, transfers: &[u8], from: usize, w: usize) -> usize
    requires { (1 ≤ w) × (w ≤ 16) × (from + w ≤ length transfers.now) × (at + 16 ≤ length octets.old) }
    ensures { Collected w (2 ^ w - 1) (drop from transfers.now) octets.old at octets.new result }
{
    if from + 16 <= transfers.len() {
        words::place(octets, at, &transfers[from..], 16, 16);
        return at + w;
    }
    words::place(octets, at, &transfers[from..], w, w);
    at + w
}

// The kept ones of the lanes at place `from` of a take, fast: null lanes are closed up by the sieve, four or eight at a time.
pub fn gather(
    octets: &mut [u8],
    at: usize,
    transfers: &[u8],
    from: usize,
    lanes: Lanes,
    keep: u32,
    sieve: &Sieve,
) -> usize
    requires lanes { (keep ≤ lanes.full) × (head_octets ≤ from) × (from + lanes.width ≤ length transfers.now) }
    requires room { at + 16 ≤ length octets.old }
    ensures { Collected lanes.width keep (drop from transfers.now) octets.old at octets.new result }
{
    if lanes.width == 1 {
        return keep_lane(octets, at, transfers[from], keep);
    }
    if keep == lanes.full {
        return gather_all(octets, at, transfers, from, lanes.width);
    }
    sieve.sift(octets, at, transfers, from, lanes.width, keep)
}

// An octet of marks with mark m at place i, where none stands.
fn add_mark(octet: u8, i: usize, m: u8) -> u8
    requires { (i < 8) × (m ≤ 1) × (octet / 2 ^ i % 2 ≡ 0) }
    ensures { result ≡ octet + m * 2 ^ i }
{
    octet + m * (1u8 << i)
}

// One lane of any type, at place n, where no mark stands: its octet, and a mark where TKEEP is high and TSTRB low.
fn keep_marked(
    octets: &mut [u8],
    marks: &mut [u8],
    n: usize,
    lane: u8,
    keep: u32,
    strb: u32,
) -> usize
    requires { (n < length octets.old) × (n < 8 * length marks.old) × (get_or (mark_bits marks.old) n 0 ≡ 0) }
    ensures value { result ≡ n + keep % 2 }
    ensures octets_after { octets.new ≡ set octets.old n lane }
    ensures marks_after { mark_bits marks.new ≡ set (mark_bits marks.old) n ((1 - strb % 2) * (keep % 2)) }
{
    octets[n] = lane;
    let q = n / 8;
    marks[q] = add_mark(marks[q], n % 8, ((1 - strb % 2) * (keep % 2)) as u8);
    n + (keep % 2) as usize
}

// The kept lanes of a record with position lanes.
pub fn sift_marked(
    octets: &mut [u8],
    marks: &mut [u8],
    at: usize,
    lanes: &[u8],
    keep: u32,
    strb: u32,
) -> usize
    requires { (8 * length marks.old ≡ length octets.old) × (at + length lanes.now ≤ length octets.old) × Clear at (mark_bits marks.old) }
    ensures { Marks keep strb lanes.now octets.old (mark_bits marks.old) at octets.new (mark_bits marks.new) result }
{
    let mut n = at;
    let mut k = keep;
    let mut t = strb;
    for lane in lanes {
        n = keep_marked(octets, marks, n, *lane, k, t);
        k /= 2;
        t /= 2;
    }
    n
}
