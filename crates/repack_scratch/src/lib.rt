// How a converter holds a take between reading and writing: an item as a code, and a stretch as one entry of a table. The fast
// converter, which knows a record by its width and carries no user bits, holds a code as an octet and a mark. What codes and
// entries mean is in specs/, the laws are in proofs/. Reading and writing records is not here.
#![tactic(auto)]

ghost use Rattle.std.specs.Prelude.{◌≡◌, ◌≤◌, ◌<◌};
ghost use Rattle.stream_spec.specs.Layout.{size, of_width};
ghost use Rattle.repack_scratch.specs.Lanes.{Wide};

use stream_record::HEAD_OCTETS;

// How many items the arrays hold: the 45,584 of a take of 65,536 octets at most, and more than the 32 that may be read past
// the last one. A mark is a bit, eight an octet. As many stretches as a take has records, and one more.
pub const ITEM_ROOM: usize = 0xB260;

pub const MARK_ROOM: usize = 0x164C;

pub const STRETCH_ROOM: usize = 0x2001;

// The octets of a record of w lanes, without user bits. The width has passed its test.
pub fn record_size(w: usize) -> usize
    requires { w ≤ 16 }
    ensures { result ≡ size (of_width w) }
{
    HEAD_OCTETS + w
}

// How many lanes each record has, and the mask of them all.
#[derive(Clone, Copy, Debug, PartialEq, Eq)]
pub struct Lanes {
    pub width: usize,
    pub full: u32,
    ghost wide: { Wide width full },
}

impl Lanes {
    // So many lanes with the mask of them all. The width has passed its test.
    pub fn new(width: usize) -> Lanes
        requires { (1 ≤ width) × (width ≤ 16) }
        ensures { result.width ≡ width }
    {
        Lanes {
            width,
            full: (1u32 << width) - 1,
        }
    }

    // The octets of their records.
    pub fn record_size(self) -> usize
        ensures { result ≡ size (of_width self.width) }
    {
        record_size(self.width)
    }
}

// A stretch as an entry of the table: how many items it has, whether an end is behind them, and its pair, in one number, since
// the table is cleared at each call.
#[derive(Clone, Copy, Debug, PartialEq, Eq)]
pub struct Entry(pub u32);

impl Entry {
    ghost use Rattle.repack_scratch.specs.Codes.{entry_of, entry_count, entry_last, entry_pair};

    // The entry of a stretch of so many items and this pair; `last` says whether an end is behind them.
    pub fn new(count: u32, last: bool, pair: u32) -> Entry
        requires { (count < 0x10000) × (pair < 0x8000) }
        ensures { result ≡ entry_of count last pair }
    {
        Entry(count + 0x10000 * (u32::from(last) + 2 * pair))
    }

    // How many items the stretch has.
    pub fn count(self) -> u32
        ensures { result ≡ entry_count self }
    {
        self.0 % 0x10000
    }

    // Whether an end is behind them.
    pub fn last(self) -> bool
        ensures { result ≡ entry_last self }
    {
        self.0 / 0x10000 % 2 == 1
    }

    // Their pair.
    pub fn pair(self) -> u32
        ensures { result ≡ entry_pair self }
    {
        self.0 / 0x20000
    }
}
