// Items without user bits of which some are position items: a record near which no mark stands is written as one of data, any
// other lane by lane. Takes without a mark are repack_plain's, and which stretches there are repack_emit's.
#![tactic(auto)]

ghost use Rattle.std.specs.Prelude.{◌≡◌, true, ◌++◌, map, ℕ, ◌+◌, ◌*◌, ◌≤◌, ◌<◌, length, get_or, drop};
ghost use Rattle.stream_spec.specs.Layout.{head_octets, size, bit_of, mask_of, of_width};
ghost use Rattle.repack_scratch.specs.Codes.{codes_in, mark_bits};
ghost use Rattle.repack_plain.specs.Write.{item_octet, item_strobe, record_at, RecordFits};
ghost use Rattle.repack_marked.specs.Marked.{items_from, lanes_put};

use repack_plain::{Head, Items};
use stream_record::layout::HEAD_OCTETS;

// An octet for each item, and a mark, which is a bit, for a position item. Up to 32 behind them may be read.
#[derive(Clone, Copy)]
pub struct Marked<'a> {
    pub octets: &'a [u8],
    pub marks: &'a [u8],
    ghost same: { length octets.now ≡ 8 * length marks.now },
    ghost small: { (i : ℕ) → get_or octets.now i 0 < 0x100 },
}

impl<'a> Marked<'a> {
    // Of two arrays, of which the second has a bit for each octet of the first.
    pub fn new(octets: &'a [u8], marks: &'a [u8]) -> Marked<'a>
        requires { length octets.now ≡ 8 * length marks.now }
        ensures octets { result.octets.now ≡ octets.now }
        ensures marks { result.marks.now ≡ marks.now }
    {
        Marked { octets, marks }
    }

    // Whether item i is a position item.
    fn mark(&self, i: usize) -> bool
        requires { i < length self.now.octets.now }
        ensures { bit_of result ≡ get_or (mark_bits self.now.marks.now) i 0 }
    {
        self.marks[i / 8] / (1u8 << (i % 8)) % 2 != 0
    }

    // Whether no mark stands at the sixteen items from item `from` on: told by 32 marks, of which these are sixteen.
    fn unmarked_near(&self, from: usize) -> bool
        requires { from + 32 ≤ length self.now.octets.now }
        ensures { result ≡ true → (i : ℕ) → i < 16 → get_or (mark_bits self.now.marks.now) (from + i) 0 ≡ 0 }
    {
        words::load::<u32>(self.marks, from / 8) == 0
    }

    // The data octets of the n items from item `from` on, from lane 0 up; answers their TSTRB.
    fn put_items(&self, out: &mut [u8], from: usize, n: usize) -> u32
        requires { (n ≤ 16) × (from + n ≤ length self.now.octets.now) × (head_octets + n ≤ length out.old) }
        ensures value { result ≡ mask_of (map item_strobe (items_from self.now.octets.now self.now.marks.now from n)) }
        ensures out_after { out.new ≡ lanes_put n (map item_octet (items_from self.now.octets.now self.now.marks.now from n)) out.old }
    {
        let mut strb = 0;
        for j in (0..n).rev() {
            let d = u8::from(!self.mark(from + j));
            out[HEAD_OCTETS + j] = self.octets[from + j] * d;
            strb = 2 * strb + u32::from(d);
        }
        strb
    }

    // A record with the n items from item `from` on, lane by lane, at the front of `out`.
    fn put_lanes(&self, out: &mut [u8], from: usize, n: usize, v: usize, head: Head)
        requires { (from + n ≤ length self.now.octets.now) × RecordFits 0 v n out.old }
        ensures { out.new ≡ record_at 0 v head (codes_in self.now.octets.now self.now.marks.now) from n ++ drop (size (of_width v)) out.old }
    {
        let strb = self.put_items(out, from, n);
        stream_write::write_nulls(out, n, v);
        stream_write::write_header(out, head.header(n, strb));
    }
}

impl<'a> Items for Marked<'a> {
    ghost use Rattle.repack_plain.specs.Holding.{bare_part};
    ghost use Rattle.repack_marked.specs.Holding.{marked_held};

    ghost user = { λ _. 0 };

    ghost codes = { λ items. codes_in items.octets.now items.marks.now };

    ghost holds = { λ items from n. from + n + 32 ≤ length items.octets.now };

    fn record_size(&self, v: usize) -> usize {
        repack_scratch::record_size(v)
    }

    // In groups where no mark is near, else lane by lane.
    fn put_record(&self, out: &mut [u8], from: usize, n: usize, v: usize, head: Head) {
        if self.unmarked_near(from) {
            repack_plain::put_plain(out, &self.octets[from..], n, v, head);
        } else {
            self.put_lanes(out, from, n, v, head);
        }
    }

    ghost held = { λ items from n h. marked_held items.octets.now items.marks.now (from + n) items.same h };

    ghost part = { λ items from n i k a b h. bare_part items.octets.now from n i k b h };
}
