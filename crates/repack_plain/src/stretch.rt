// A stretch as it is written: how far, and what the headers of its records have.
ghost use Rattle.std.specs.Prelude.{◌≡◌, ◌≤◌, ◌<◌};
ghost use Rattle.stream_spec.specs.Layout.{width_most};

use stream_record::Header;

// How far a stretch is written: up to octet `to` of the output; `left` items, from item `from` on, are not written yet.
#[derive(Clone, Copy, Debug, PartialEq, Eq)]
pub struct Cursor {
    pub to: usize,
    pub from: usize,
    pub left: usize,
}

// The pair of a record, and its TLAST; of a stretch, that of its last record.
#[derive(Clone, Copy, Debug, PartialEq, Eq)]
pub struct Head {
    pub pair: u32,
    pub last: bool,
    ghost fits: { pair < 0x10000 },
}

impl Head {
    ghost use Rattle.repack_plain.specs.Write.{header_with};

    // The header of a record with items on its first n lanes, and this TSTRB.
    pub fn header(self, n: usize, strb: u32) -> Header
        requires { n ≤ width_most }
        ensures { result ≡ header_with self n strb }
    {
        Header {
            flags: u32::from(self.last),
            tid: (self.pair % 0x100) as u8,
            tdest: (self.pair / 0x100) as u8,
            keep: (1u32 << n) - 1,
            strb,
        }
    }
}
