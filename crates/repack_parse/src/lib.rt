// Reads a take of transfer records without user bits, once, into held items and a table of stretches, or refuses it. The usual
// records are read in usual.rt; how far a take has been read, and its steps, are in state.rt. Nothing is written to the caller's
// memory here.
#![tactic(auto)]

mod state;
mod usual;

ghost use Rattle.std.specs.Prelude.{◌≡◌, ◌*◌, ◌/◌, length};
ghost use Rattle.stream_spec.specs.Layout.{size, of_width};
ghost use Rattle.stream_record.specs.Header.{refusal_at};
ghost use Rattle.repack_scratch.specs.Codes.{item_room, mark_room, stretch_room, Unmarked, mark_bits, pair_code};
ghost use Rattle.repack_gather.specs.Gather.{Clear};
ghost use Rattle.repack_parse.specs.Read.{Carries, AddedData, AddedBits, Ready, HeaderIs, NextIs, ParsedIs};

use refusal::Refusal;
use repack_scratch::{Entry, Lanes};
use repack_sieve::Sieve;
pub use state::Open;
use stream_record::{Fault, HEAD_OCTETS, Header, Take};

// What a take is read to: so many stretches in the table, and whether every item is data.
#[derive(Clone, Copy, Debug, PartialEq, Eq)]
pub struct Parsed {
    pub stretches: usize,
    pub plain: bool,
}

// The pair of a header as one number.
pub fn pair_code(h: Header) -> u32
    ensures { result ≡ pair_code h.tid h.tdest }
{
    u32::from(h.tid) + 0x100 * u32::from(h.tdest)
}

// stays: octets, marks, table and state are handed apart. A struct of them is no plainer: it holds three `&mut`, and each function
// that takes it owes a clause for each of the three that it is still the caller's memory.
// stays: add_data, add_marked and usual::add_usual are three. One with a closure for its middle line is no plainer: the closure
// holds the arrays, and its clauses would say again what each of them ensures.

// One record more, which has no fault and an item, and of which each kept lane is data.
fn add_data(
    lanes: Lanes,
    rec: &[u8],
    h: Header,
    octets: &mut [u8],
    table: &mut [Entry],
    state: &mut Open,
)
    requires { Carries (of_width lanes.width) rec.now h × (h.keep ≡ h.strb) × Ready (of_width lanes.width) octets.old table.old state.old }
    ensures { AddedData lanes.width rec.now octets.old table.old state.old octets.new table.new state.new }
{
    state.turn(table, pair_code(h));
    state.items = repack_gather::gather_lanes(
        octets,
        state.items,
        lanes,
        &rec[HEAD_OCTETS..],
        h.keep,
    );
    state.end(table, h.flags);
}

// One record more, which has no fault and an item, and may have position lanes.
fn add_marked(
    lanes: Lanes,
    rec: &[u8],
    h: Header,
    octets: &mut [u8],
    marks: &mut [u8],
    table: &mut [Entry],
    state: &mut Open,
)
    requires record_fits { Carries (of_width lanes.width) rec.now h × Ready (of_width lanes.width) octets.old table.old state.old }
    requires unmarked { (8 * length marks.old ≡ length octets.old) × Clear state.old.items (mark_bits marks.old) }
    ensures { AddedBits lanes.width rec.now octets.old marks.old table.old state.old octets.new marks.new table.new state.new }
{
    state.turn(table, pair_code(h));
    state.items = repack_gather::sift_marked(
        octets,
        marks,
        state.items,
        &rec[HEAD_OCTETS..],
        h.keep,
        h.strb,
    );
    state.end(table, h.flags);
}

// The refusal for a fault of the record at octet `at`.
fn refusal_at(fault: Fault, lanes: Lanes, at: usize) -> Refusal
    ensures { result ≡ refusal_at (at / size (of_width lanes.width)) fault }
{
    fault.at(at / lanes.record_size())
}

// The header of the record at octet `at` of the take, which tells all of its faults, or the refusal for it.
fn sound_header(lanes: Lanes, rec: &[u8], at: usize) -> Result<Header, Refusal>
    requires { length rec.now ≡ size (of_width lanes.width) }
    ensures { HeaderIs lanes.width rec.now at result }
{
    let h = stream_record::read_header(rec);
    let told = stream_record::fault_of(h, stream_record::shape_of(lanes.width, 0));
    told.map_err(|fault| refusal_at(fault, lanes, at))?;
    Ok(h)
}

// Judges and adds the record at octet `at` of the take, of any kind. One with no item changes nothing, whatever its pair. Answers
// whether it may have marked an item.
fn unusual(
    lanes: Lanes,
    rec: &[u8],
    at: usize,
    octets: &mut [u8],
    marks: &mut [u8],
    table: &mut [Entry],
    state: &mut Open,
) -> Result<bool, Refusal>
    requires whole { (length rec.now ≡ size (of_width lanes.width)) × Ready (of_width lanes.width) octets.old table.old state.old }
    requires unmarked { (8 * length marks.old ≡ length octets.old) × Clear state.old.items (mark_bits marks.old) }
    ensures { NextIs lanes.width rec.now at octets.old marks.old table.old state.old octets.new marks.new table.new state.new result }
{
    let h = sound_header(lanes, rec, at)?;
    if h.keep + h.flags == 0 {
        return Ok(false);
    }
    if h.keep == h.strb {
        add_data(lanes, rec, h, octets, table, state);
        return Ok(false);
    }
    add_marked(lanes, rec, h, octets, marks, table, state);
    Ok(true)
}

// Reads a take of records without user bits: the items' octets and marks, one entry a stretch into `table`. No mark stands at the
// start. Usual records are skimmed; each other one is judged in full. A helper for the crate stream_repack, which owns the arrays.
pub fn parse(
    take: &Take<'_>,
    octets: &mut [u8],
    marks: &mut [u8],
    table: &mut [Entry],
) -> Result<Parsed, Refusal>
    requires bare { (take.now.shape.user ≡ 0) × Unmarked (mark_bits marks.old) }
    requires room { (length octets.old ≡ item_room) × (length marks.old ≡ mark_room) × (length table.old ≡ stretch_room) }
    ensures { ParsedIs take.now.shape.width take.now.octets.now octets.new marks.new table.new result }
{
    let transfers = take.octets;
    let lanes = Lanes::new(take.shape.width);
    let sieve = Sieve::new();
    let mut state = Open::new();
    let mut at = 0;
    let mut plain = true;
    loop {
        at = usual::skim(lanes, &sieve, transfers, at, octets, table, &mut state);
        if transfers.len() <= at {
            return Ok(Parsed {
                stretches: state.finish(table),
                plain,
            });
        }
        let next = at + lanes.record_size();
        let rec = &transfers[at..next];
        if unusual(lanes, rec, at, octets, marks, table, &mut state)? {
            plain = false;
        }
        at = next;
    }
}
