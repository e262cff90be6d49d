// The numbers of a record's layout by name (paper 01, 'One record of a take'), as stream_spec's Layout has them, and the
// signals of octet 0. Whoever reads or writes a record's octets takes its numbers from here.
ghost use Rattle.std.specs.Prelude.{◌≡◌};
ghost use Rattle.stream_spec.specs.Layout.{bit};

// The octets before a record's data, and where each field starts. TKEEP and TSTRB have two octets, low octet first.
pub const HEAD_OCTETS: usize = 7;

pub const FLAGS: usize = 0;

pub const TID: usize = 1;

pub const TDEST: usize = 2;

pub const TKEEP: usize = 3;

pub const TSTRB: usize = 5;

// The most byte lanes, the most user bits to a byte, and the octets of the smallest record.
pub const WIDTH_MOST: usize = 16;

pub const USER_MOST: usize = 4;

pub const SIZE_LEAST: usize = HEAD_OCTETS + 1;

pub const TDEST_MOST: u8 = 15;

// "A take holds at most 65,536 octets."
pub const CAPTURE_MOST: usize = 0x1_0000;

// The flags of octet 0 in use: TLAST, TVALID, TREADY, ARESETn in a cycle record, TLAST alone in a transfer record.
pub const CYCLE_FLAGS: u32 = 4;

pub const TRANSFER_FLAGS: u32 = 1;

// The place value of each flag, bits 1 to 3 of octet 0. TLAST is bit 0, whose place value is 1.
const TVALID: u32 = 0x2;

const TREADY: u32 = 0x4;

pub const ARESETN: u32 = 0x8;

pub fn tlast(flags: u32) -> bool
    ensures { result ≡ bit 0 flags }
{
    flags % 2 == 1
}

pub fn tvalid(flags: u32) -> bool
    ensures { result ≡ bit 1 flags }
{
    flags / TVALID % 2 == 1
}

pub fn tready(flags: u32) -> bool
    ensures { result ≡ bit 2 flags }
{
    flags / TREADY % 2 == 1
}

pub fn aresetn(flags: u32) -> bool
    ensures { result ≡ bit 3 flags }
{
    flags / ARESETN % 2 == 1
}
