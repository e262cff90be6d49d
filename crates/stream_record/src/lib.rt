// A record's octets in code: its size, its header's fields, the faults of a width, a length and a record. What each octet is
// stands in stream_spec's Layout, against which everything here and in the crates above is proved; the numbers of the layout
// have their names in `layout`. Functions with a `requires` are for the crates above, which test first.
#![tactic(auto)]

mod checks;
mod faults;
pub mod layout;
mod take;

ghost use Rattle.std.specs.Prelude.{◌≡◌, ℕ, ◌+◌, ◌*◌, ◌%◌, ◌≤◌, ◌<◌, ◌^◌, ltb, length, get_or};
ghost use Rattle.stream_spec.specs.Layout.{head_octets, width_most, user_most, user_octets, user_number, shaped, at_width, size, types_of, any_reserved};
ghost use Rattle.stream_spec.specs.Checks.{width_check, length_check, user_fault};
ghost use Rattle.stream_spec.specs.Walk.{Narrow};
ghost use Rattle.stream_record.specs.Header.{header_of, header_fault};

pub use checks::{check_length, check_shapes};
pub use faults::{Fault, fault_in, fault_of, record_fault};
pub use layout::HEAD_OCTETS;
use layout::{CAPTURE_MOST, FLAGS, TDEST, TDEST_MOST, TID, TKEEP, TSTRB, USER_MOST, WIDTH_MOST};
use stream_spec::Shape;
pub use take::Take;

// The fields of a record before its data.
#[derive(Clone, Copy, Debug, PartialEq, Eq)]
pub struct Header {
    pub flags: u32,
    pub tid: u8,
    pub tdest: u8,
    pub keep: u32,
    pub strb: u32,
}

// The shape of records of so many lanes with so many user bits to a byte, and of the same kind of records at another width. No
// other code makes a shape of its parts.
pub fn shape_of(width: usize, user: usize) -> Shape
    ensures { result ≡ shaped width user }
{
    Shape { width, user }
}

pub fn at_width(s: Shape, v: usize) -> Shape
    ensures { result ≡ at_width s v }
{
    Shape { width: v, ..s }
}

// Whether a width is refused.
fn bad_width(w: usize) -> bool
    ensures { result ≡ (width_check w).found }
{
    w == 0 || WIDTH_MOST < w
}

// Whether a number of user bits is refused.
fn bad_user(m: usize) -> bool
    ensures { result ≡ ltb user_most m }
{
    USER_MOST < m
}

// How many user bits a record has, all lanes together. The shape has passed its test.
fn user_bits(s: Shape) -> usize
    requires { Narrow s }
    ensures { (result ≡ s.width * s.user) × (result ≤ 64) }
{
    s.width * s.user
}

// The octets that hold them.
pub fn user_octets(s: Shape) -> usize
    requires { Narrow s }
    ensures { (result ≡ user_octets s.width s.user) × (result ≤ 8) }
{
    (user_bits(s) + 7) / 8
}

// The octets of a record. The shape has passed its test.
pub fn record_size(s: Shape) -> usize
    requires { Narrow s }
    ensures { result ≡ size s }
{
    HEAD_OCTETS + s.width + user_octets(s)
}

// How many user bits the last octet of a record holds, where others in it are padding; 0 where none is.
pub fn user_rest(s: Shape) -> usize
    requires { Narrow s }
    ensures { (result ≡ s.width * s.user % 8) × (result < 8) }
{
    user_bits(s) % 8
}

// Whether a bit of a record's padding is set.
pub fn bad_padding(s: Shape, rec: &[u8]) -> bool
    requires { Narrow s × (length rec.now ≡ size s) }
    ensures { result ≡ user_fault s rec.now }
{
    let n = user_rest(s);
    n != 0 && 1u8 << n <= rec[rec.len() - 1]
}

// The user bits of all lanes of a record as one number. Eight octets that end with the record's last one are read, other octets
// of it among them where it has fewer than eight of user bits, and shifted down.
pub fn load_user(rec: &[u8], s: Shape) -> u64
    requires { Narrow s × (length rec.now ≡ size s) }
    ensures { result ≡ user_number s rec.now }
{
    let k = user_octets(s);
    if k == 0 {
        return 0;
    }
    words::load_before::<u64>(rec, rec.len(), k)
}

// Whether the length of an input is refused. The shape has passed its test.
fn bad_length(s: Shape, input: &[u8]) -> bool
    requires { Narrow s }
    ensures { result ≡ (length_check s input.now).found }
{
    let n = input.len();
    CAPTURE_MOST < n || n % record_size(s) != 0
}

// The mask of two octets from octet i on, low octet first.
fn read_mask(rec: &[u8], i: usize) -> u32
    requires { i + 2 ≤ length rec.now }
    ensures { result ≡ get_or rec.now i 0 + 256 * get_or rec.now (i + 1) 0 }
{
    u32::from(rec[i]) + 0x100 * u32::from(rec[i + 1])
}

// The header of the record at the front of `rec`.
pub fn read_header(rec: &[u8]) -> Header
    requires { head_octets ≤ length rec.now }
    ensures { result ≡ header_of rec.now }
{
    Header {
        flags: u32::from(rec[FLAGS]),
        tid: rec[TID],
        tdest: rec[TDEST],
        keep: read_mask(rec, TKEEP),
        strb: read_mask(rec, TSTRB),
    }
}

// Whether a bit that must be zero is set, or TDEST is above 15; `used` flags of octet 0 are in use.
fn field_fault(h: Header, used: u32, s: Shape) -> bool
    requires { (s.width ≤ width_most) × (used ≤ 8) }
    ensures { result ≡ header_fault used s h }
{
    let limit = 1u32 << s.width;
    1u32 << used <= h.flags || TDEST_MOST < h.tdest || limit <= h.keep || limit <= h.strb
}

// Whether a lane is reserved: TSTRB high where TKEEP is low.
pub fn reserved(h: Header) -> bool
    ensures { (w : ℕ) → h.strb < 2 ^ w → result ≡ any_reserved (types_of w h.keep h.strb) }
{
    h.strb & h.keep != h.strb
}
