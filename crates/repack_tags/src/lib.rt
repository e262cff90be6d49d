// Items with user bits, which repack_scratch holds as one code each: reading a record's kept lanes, and writing records of them,
// lane by lane. Which records are read and written, and when, is not here. Helpers for the crates above, which have tested and
// made room.
#![tactic(auto)]

ghost use Rattle.std.specs.Prelude.{◌≡◌, ◌++◌, map, ◌+◌, ◌%◌, ◌≤◌, ◌<◌, length, take, drop, set};
ghost use Rattle.words.specs.Splice.{splice};
ghost use Rattle.stream_spec.specs.Layout.{head_octets, user_most, lane_octet};
ghost use Rattle.repack_scratch.specs.Codes.{tagged_code};
ghost use Rattle.repack_tags.specs.Tags.{GatheredTags, TagsFit, PartFits, item_lanes, tags_of};

use repack_plain::{Head, Items};
use stream_record::layout::HEAD_OCTETS;

// TSTRB and the user bits of a record's lanes, lane 0's bits the lowest.
#[derive(Clone, Copy)]
pub struct Tags {
    pub strb: u32,
    pub user: u64,
}

// One lane with its user bits, at place n. Where TKEEP's lowest bit is 0 the place stays, and the next lane is stored over
// this one.
fn keep_tagged(items: &mut [u16], n: usize, lane: u8, keep: u32, strb: u32, user: u64) -> usize
    requires { (n < length items.old) × (user < 16) }
    ensures value { result ≡ n + keep % 2 }
    ensures after { items.new ≡ set items.old n (tagged_code strb user lane) }
{
    items[n] = u16::from(lane) + 0x100 * ((strb % 2) as u16) + 0x200 * (user as u16);
    n + (keep % 2) as usize
}

// The lanes that TKEEP keeps, each with its m user bits, from place `at` on; answers the place after them. A lane has its
// bits whether it is kept or not. No branch on the mask.
pub fn sift_tagged(
    items: &mut [u16],
    at: usize,
    lanes: &[u8],
    keep: u32,
    strb: u32,
    user: u64,
    m: usize,
) -> usize
    requires { (m ≤ 4) × (at + length lanes.now ≤ length items.old) }
    ensures { GatheredTags m keep strb user lanes.now items.old at items.new result }
{
    let mut n = at;
    let mut k = keep;
    let mut t = strb;
    let mut u = user;
    for lane in lanes {
        n = keep_tagged(items, n, *lane, k, t, u % (1u64 << m));
        k /= 2;
        t /= 2;
        u >>= m;
    }
    n
}

// Items with their user bits, one code each.
#[derive(Clone, Copy)]
pub struct Tagged<'a> {
    pub items: &'a [u16],
    pub user: usize,
    ghost narrow: { user ≤ user_most },
}

impl<'a> Tagged<'a> {
    // The data octets of the n items from item `from` on, from lane 0 up; answers their TSTRB and user bits.
    fn put_items(&self, out: &mut [u8], from: usize, n: usize) -> Tags
        requires few { (n ≤ 16) × (from + n ≤ length self.now.items.now) × (head_octets + n ≤ length out.old) }
        requires fits { TagsFit self.now.user (take n (drop from self.now.items.now)) }
        ensures value { result ≡ tags_of self.now.user (item_lanes self.now.items.now from n) }
        ensures out_after { out.new ≡ splice head_octets (map lane_octet (item_lanes self.now.items.now from n)) out.old }
    {
        let mut strb = 0;
        let mut user = 0;
        for j in (0..n).rev() {
            let x = self.items[from + j];
            let d = x / 0x100 % 2;
            out[HEAD_OCTETS + j] = (x % 0x100 * d) as u8;
            strb = 2 * strb + u32::from(d);
            user = (user << self.user) + u64::from(x / 0x200);
        }
        Tags { strb, user }
    }
}

impl<'a> Items for Tagged<'a> {
    ghost use Rattle.repack_tags.specs.Holding.{tagged_part};

    ghost user = { λ items. items.user };

    ghost codes = { λ items. items.items.now };

    ghost holds = { λ items from n. (from + n ≤ length items.items.now) × PartFits items.user items.items.now from n };

    fn record_size(&self, v: usize) -> usize {
        stream_record::record_size(stream_record::shape_of(v, self.user))
    }

    // Lane by lane.
    fn put_record(&self, out: &mut [u8], from: usize, n: usize, v: usize, head: Head) {
        let tags = self.put_items(out, from, n);
        stream_write::write_nulls(out, n, v);
        stream_write::write_user(
            out,
            HEAD_OCTETS + v,
            tags.user,
            stream_record::user_octets(stream_record::shape_of(v, self.user)),
        );
        stream_write::write_header(out, head.header(n, tags.strb));
    }

    ghost held = { λ items from n h. h.0 };

    ghost part = { λ items from n i k a b h. tagged_part items.user items.items.now from n i k a b h };
}
