// Skims over the usual records of a take: no fault, no position lane, the pair of the open stretch. Each is told by the two
// words of its header; no place is counted, and no mark is touched. The first record of another kind is left to `parse`.
ghost use Rattle.std.specs.Prelude.{◌≡◌, true, ◌+◌, ◌≤◌, ◌<◌, length};
ghost use Rattle.stream_spec.specs.Layout.{head_octets, size, of_width};
ghost use Rattle.repack_scratch.specs.Codes.{pair_limit};
ghost use Rattle.repack_parse.specs.Read.{Ready, AddedData};
ghost use Rattle.repack_parse.specs.Reading.{record_from, UsualAt, Reading, Skimmed};

use crate::Open;
use repack_scratch::{Entry, Lanes};
use repack_sieve::Sieve;
use stream_record::HEAD_OCTETS;
use stream_record::layout::TKEEP;

// Whether the record at octet `at` is told as usual.
fn usual_at(transfers: &[u8], at: usize, pair: u32, full: u32) -> bool
    requires { (at + head_octets ≤ length transfers.now) × (pair < pair_limit) }
    ensures { result ≡ true → UsualAt transfers.now at pair full }
{
    let lo = words::load::<u32>(transfers, at);
    let hi = words::load::<u32>(transfers, at + TKEEP);
    stream_head::is_usual(lo, hi, pair, full)
}

// The usual record at octet `at` is added.
fn add_usual(
    lanes: Lanes,
    sieve: &Sieve,
    transfers: &[u8],
    at: usize,
    octets: &mut [u8],
    table: &mut [Entry],
    state: &mut Open,
)
    requires ready { Ready (of_width lanes.width) octets.old table.old state.old }
    requires usual { (at + size (of_width lanes.width) ≤ length transfers.now) × UsualAt transfers.now at state.old.pair lanes.full }
    ensures { AddedData lanes.width (record_from (of_width lanes.width) transfers.now at) octets.old table.old state.old octets.new table.new state.new }
{
    let lo = words::load::<u32>(transfers, at);
    let hi = words::load::<u32>(transfers, at + TKEEP);
    state.items = repack_gather::gather(
        octets,
        state.items,
        transfers,
        at + HEAD_OCTETS,
        lanes,
        hi % 0x10000,
        sieve,
    );
    state.end(table, lo % 2);
}

// Adds usual records from octet `from` on, up to the first that is not told as one, or to the end. Answers how far.
// stays: by octets, for the bar of repack (docs/PERFORMANCE.md, 'The shape'): a record's lanes are moved with octets of the next
// record behind them, which a chunk of `chunks_exact` does not have.
pub fn skim(
    lanes: Lanes,
    sieve: &Sieve,
    transfers: &[u8],
    from: usize,
    octets: &mut [u8],
    table: &mut [Entry],
    state: &mut Open,
) -> usize
    requires { Reading (of_width lanes.width) transfers.now octets.old table.old state.old from }
    ensures { Skimmed lanes.width transfers.now octets.old table.old state.old from octets.new table.new state.new result }
{
    let z = lanes.record_size();
    let mut at = from;
    while at < transfers.len() && usual_at(transfers, at, state.pair, lanes.full) {
        add_usual(lanes, sieve, transfers, at, octets, table, state);
        at += z;
    }
    at
}
