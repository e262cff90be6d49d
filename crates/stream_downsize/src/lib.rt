// The public call `downsize`: lane-keeping downsizing of a take of transfer records to a width that divides its own, or
// a refusal. Which octet of a record is what is in the crate stream_record; the packed form is not made here, but in stream_repack.
#![tactic(auto)]

ghost use Rattle.std.specs.Prelude.{◌≡◌, cond, List, ◌++◌, ℕ, ◌+◌, ◌/◌, ◌^◌, ◌≤◌, ◌<◌, length, take, drop};
ghost use Rattle.stream_spec.specs.Layout.{head_octets, width_most, size, odd, types_of, lanes_of, users_of, octets_of, sliced};
ghost use Rattle.stream_spec.specs.Answers.{Downsized};
ghost use Rattle.stream_spec.specs.Memory.{in_front};
ghost use Rattle.stream_spec.specs.Walk.{Narrow};
ghost use Rattle.stream_downsize.specs.Slices.{data_in, slice_of, slice_header, Unreserved, record_slices};
ghost use Rattle.stream_downsize.specs.Slices.{Put, RecordFits, TakeFits};

use refusal::Refusal;
use stream_record::{HEAD_OCTETS, Header, Take};
use stream_spec::Shape;

// What a lane carries where its bit of a mask is high, else nothing.
fn if_high<T: Copy>(mask: u32, lane: usize, x: T, nothing: T) -> T
    requires { lane < 32 }
    ensures { result ≡ cond (odd (mask / 2 ^ lane)) x nothing }
{
    if mask >> lane & 1 == 1 { x } else { nothing }
}

// The data octets of v lanes behind the header at the front of `out`.
fn put_lanes(out: &mut [u8], lanes: &[u8], h: Header, v: usize)
    requires { (v ≤ width_most) × (v ≤ length lanes.now) × (head_octets + v ≤ length out.old) × Unreserved v h }
    ensures { out.new ≡ take head_octets out.old ++ (data_in v h lanes.now ++ drop (head_octets + v) out.old) }
{
    for (j, octet) in out[HEAD_OCTETS..HEAD_OCTETS + v].iter_mut().enumerate() {
        *octet = if_high(h.strb, j, lanes[j], 0);
    }
}

// The user bits of the lowest lanes, those of null lanes zero, as one number.
fn slice_user(keep: u32, user: u64, t: Shape) -> u64
    requires { Narrow t }
    ensures { (strb : ℕ) (ds : List ℕ) → result ≡ users_of t.user (lanes_of t.user (types_of t.width keep strb) user ds) }
{
    let m = t.user;
    let mut bits = 0;
    for j in (0..t.width).rev() {
        bits = (bits << m) + if_high(keep, j, (user >> (j * m)) % (1u64 << m), 0);
    }
    bits
}

// A slice at the front of `out`: the lowest lanes of header h, with their octets at the front of `lanes` and their user bits the
// lowest of `user`.
fn put_record(out: &mut [u8], lanes: &[u8], t: Shape, h: Header, user: u64)
    requires { Narrow t × (t.width ≤ length lanes.now) × (size t ≤ length out.old) × Unreserved t.width h × (h.flags ≤ 1) }
    ensures { out.new ≡ octets_of t.user (slice_of t h user lanes.now (odd h.flags)) ++ drop (size t) out.old }
{
    put_lanes(out, lanes, h, t.width);
    let bits = slice_user(h.keep, user, t);
    let k = stream_record::user_octets(t);
    stream_write::write_user(out, HEAD_OCTETS + t.width, bits, k);
    let limit = 1u32 << t.width;
    stream_write::write_header(
        out,
        Header {
            keep: h.keep % limit,
            strb: h.strb % limit,
            ..h
        },
    );
}

// The same at place `to`: the helper is lent the output from there on. Answers the place after it.
fn put_at(out: &mut [u8], to: usize, lanes: &[u8], t: Shape, h: Header, user: u64) -> usize
    requires { Narrow t × (t.width ≤ length lanes.now) × (to + size t ≤ length out.old) × Unreserved t.width h × (h.flags ≤ 1) }
    ensures { (result ≡ to + size t) × Put (octets_of t.user (slice_of t h user lanes.now (odd h.flags))) out.old to out.new result }
{
    put_record(&mut out[to..], lanes, t, h, user);
    to + stream_record::record_size(t)
}

// The header of the slice from lane `from` on. TLAST is on the last one only.
fn slice_header(h: Header, from: usize, last: bool) -> Header
    requires { from ≤ width_most }
    ensures { result ≡ slice_header from last h }
{
    Header {
        flags: if last { h.flags % 2 } else { 0 },
        keep: h.keep >> from,
        strb: h.strb >> from,
        ..h
    }
}

// The slices of one record, from place `at` on. Answers the place after them.
fn put_slices(out: &mut [u8], at: usize, rec: &[u8], s: Shape, t: Shape) -> usize
    requires { RecordFits s t rec.now out.old at }
    ensures { Put (record_slices s t rec.now) out.old at out.new result }
{
    let h = stream_record::read_header(rec);
    let user = stream_record::load_user(rec, s);
    let count = s.width / t.width;
    let mut to = at;
    for k in 0..count {
        let from = k * t.width;
        let head = slice_header(h, from, k + 1 == count);
        to = put_at(
            out,
            to,
            &rec[HEAD_OCTETS + from..],
            t,
            head,
            user >> (from * t.user),
        );
    }
    to
}

// The slices of all records of a take. Made part of its caller, so that the number of slices is divided out once and not for each
// record.
#[inline(always)]
fn put_all(out: &mut [u8], take: &Take<'_>, t: Shape)
    requires { TakeFits take.now.shape t take.now.octets.now out.old }
    ensures { out.new ≡ in_front (sliced take.now.shape t.width take.now.octets.now) out.old }
{
    let mut to = 0;
    for rec in take.records() {
        to = put_slices(out, to, rec, take.shape, t);
    }
}

// Downsizes the take `transfers` of shape s to width v into `out`, lane by lane. Answers the number of records written, or
// refuses: 1 for either width, 16, 6, 2, then record by record 3 before 4, then 5. Refused, `out` keeps its content: no octet of
// it is written before every record is judged and the answer is known to fit.
pub fn downsize(s: Shape, v: usize, transfers: &[u8], out: &mut [u8]) -> Result<usize, Refusal>
    ensures { Downsized s v transfers.now out.old out.new result }
{
    stream_record::check_shapes(s, v)?;
    if s.width % v != 0 {
        return Err(Refusal::Ratio);
    }
    stream_record::check_length(s, transfers)?;
    let take = Take {
        shape: s,
        octets: transfers,
    };
    take.find_fault()?;
    let t = stream_record::at_width(s, v);
    let n = transfers.len() / stream_record::record_size(s) * (s.width / v);
    if out.len() < n * stream_record::record_size(t) {
        return Err(Refusal::Room);
    }
    put_all(out, &take, t);
    Ok(n)
}
