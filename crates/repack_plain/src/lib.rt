// How the items of a take are held between reading and writing, how records of them are written, stretch by stretch, and the items
// of a take in which each is data and has no user bits: all records of a stretch but the last are full and go in a tight loop, that
// of one lane in a loop of its own; then comes the last one. Takes with position items are repack_marked's, those with user bits
// repack_tags's, and which stretches there are repack_emit's.
#![tactic(auto)]

mod stretch;

ghost use Rattle.std.specs.Prelude.{◌≡◌, List, ◌++◌, map, ℕ, ◌+◌, ◌≤◌, length, drop};
ghost use Rattle.stream_spec.specs.Layout.{width_most, size, size_most, shaped, of_width};
ghost use Rattle.repack_scratch.specs.Codes.{data_code};
ghost use Rattle.repack_plain.specs.Write.{record_at, RecordFits, StretchFits, StretchPut, Advanced};

use stream_record::layout::HEAD_OCTETS;
pub use stretch::{Cursor, Head};

// The items of a take, held between reading and writing.
pub trait Items {
    // How many user bits a byte has.
    ghost user: { Self → ℕ };

    // The items' codes.
    ghost codes: { Self → List ℕ };

    // The n items from item `from` on can be written.
    ghost holds: { Self → ℕ → ℕ → Type 0 };

    // The octets of a record of v lanes.
    fn record_size(&self, v: usize) -> usize
        requires { v ≤ width_most }
        ensures { (result ≡ size (shaped v (user self.now))) × (result ≤ size_most) };

    // A record of v lanes with the n items from item `from` on, at the front of `out`.
    fn put_record(&self, out: &mut [u8], from: usize, n: usize, v: usize, head: Head)
        requires { holds self.now from n × RecordFits (user self.now) v n out.old }
        ensures { out.new ≡ record_at (user self.now) v head (codes self.now) from n ++ drop (size (shaped v (user self.now))) out.old };

    // The records of what is left of a stretch at a cursor. Answers the place after them.
    fn put_stretch(&self, out: &mut [u8], c: Cursor, v: usize, head: Head) -> usize
        requires { holds self.now c.from c.left × StretchFits (user self.now) v head (codes self.now) out.old c }
        ensures { StretchPut (user self.now) v head (codes self.now) out.old c out.new result }
    {
        let size = self.record_size(v);
        let inside = Head {
            pair: head.pair,
            last: false,
        };
        let mut d = c;
        // stays: no iterator is plainer. Octet, item and what is left go on together, and what is read reaches past a record's items.
        while v < d.left {
            self.put_record(&mut out[d.to..], d.from, v, v, inside);
            d.to += size;
            d.from += v;
            d.left -= v;
        }
        self.put_record(&mut out[d.to..], d.from, d.left, v, head);
        d.to + size
    }

    // They are held, and any part of them can be written.
    ghost held: { (x : Self) (from n : ℕ) → holds x from n → from + n ≤ length (codes x) };

    ghost part: { (x : Self) (from n i k : ℕ) → from ≤ i → i + k ≤ from + n → holds x from n → holds x i k };
}

// Items without user bits, each of which is data. Up to 32 octets behind them may be read.
#[derive(Clone, Copy)]
pub struct Plain<'a> {
    pub octets: &'a [u8],
}

// A record with n items from lane 0 up, each of which is data, at the front of `out`: the header as one word, then the lanes
// in groups. Up to sixteen octets are read.
pub fn put_plain(out: &mut [u8], octets: &[u8], n: usize, v: usize, head: Head)
    requires { (v ≤ length octets.now) × RecordFits 0 v n out.old }
    ensures { out.new ≡ record_at 0 v head (map data_code octets.now) 0 n ++ drop (size (of_width v)) out.old }
{
    stream_write::write_data_header(out, head.last, head.pair, n);
    words::place(out, HEAD_OCTETS, octets, n, v);
}

// The full records of a stretch where records have one lane: each is one word.
fn put_ones(out: &mut [u8], octets: &[u8], mut c: Cursor, head: Head) -> Cursor
    requires { (c.from + c.left + 32 ≤ length octets.now) × StretchFits 0 1 head (map data_code octets.now) out.old c }
    ensures { (result.left ≤ 1) × Advanced 0 1 head (map data_code octets.now) out.old c out.new result }
{
    // stays: chunks of 8 zipped with octets are no plainer: both ranges subtract the last item, and may be empty.
    while 1 < c.left {
        stream_write::write_one(&mut out[c.to..], head.pair, octets[c.from]);
        c.to += 8;
        c.from += 1;
        c.left -= 1;
    }
    c
}

// The full records of a stretch, all but its last.
fn put_fulls(out: &mut [u8], octets: &[u8], mut c: Cursor, v: usize, head: Head) -> Cursor
    requires { (c.from + c.left + 32 ≤ length octets.now) × StretchFits 0 v head (map data_code octets.now) out.old c }
    ensures { (result.left ≤ v) × Advanced 0 v head (map data_code octets.now) out.old c out.new result }
{
    let inside = Head {
        pair: head.pair,
        last: false,
    };
    // stays: no iterator is plainer, as in `Items::put_stretch`: sixteen octets are read for each record's items.
    while v < c.left {
        put_plain(&mut out[c.to..], &octets[c.from..], v, v, inside);
        c.to += repack_scratch::record_size(v);
        c.from += v;
        c.left -= v;
    }
    c
}

// The same, for any width.
fn put_all_but_last(out: &mut [u8], octets: &[u8], c: Cursor, v: usize, head: Head) -> Cursor
    requires { (c.from + c.left + 32 ≤ length octets.now) × StretchFits 0 v head (map data_code octets.now) out.old c }
    ensures { (result.left ≤ v) × Advanced 0 v head (map data_code octets.now) out.old c out.new result }
{
    if v == 1 {
        return put_ones(out, octets, c, head);
    }
    put_fulls(out, octets, c, v, head)
}

impl<'a> Items for Plain<'a> {
    ghost use Rattle.repack_plain.specs.Holding.{plain_held, bare_part};

    ghost user = { λ _. 0 };

    ghost codes = { λ items. map data_code items.octets.now };

    ghost holds = { λ items from n. from + n + 32 ≤ length items.octets.now };

    fn record_size(&self, v: usize) -> usize {
        repack_scratch::record_size(v)
    }

    fn put_record(&self, out: &mut [u8], from: usize, n: usize, v: usize, head: Head) {
        put_plain(out, &self.octets[from..], n, v, head);
    }

    // The full records go in loops of their own.
    fn put_stretch(&self, out: &mut [u8], c: Cursor, v: usize, head: Head) -> usize {
        let d = put_all_but_last(out, self.octets, c, v, head);
        put_plain(&mut out[d.to..], &self.octets[d.from..], d.left, v, head);
        d.to + repack_scratch::record_size(v)
    }

    ghost held = { λ items from n h. plain_held items.octets.now (from + n) h };

    ghost part = { λ items from n i k a b h. bare_part items.octets.now from n i k b h };
}
