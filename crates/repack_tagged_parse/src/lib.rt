// Reads a take of transfer records with user bits, once, into one array of codes and a table of stretches, or refuses it: one
// plain path, record by record. The steps on table and state are repack_parse's. Nothing is written to the caller's memory here.
#![tactic(auto)]

ghost use Rattle.std.specs.Prelude.{◌≡◌, length};
ghost use Rattle.stream_spec.specs.Layout.{size};
ghost use Rattle.stream_spec.specs.Walk.{Narrow};
ghost use Rattle.repack_scratch.specs.Codes.{item_room, stretch_room};
ghost use Rattle.repack_parse.specs.Read.{Carries, Ready, Added};
ghost use Rattle.repack_tagged_parse.specs.Read.{NextIs, ParsedIs};

use refusal::Refusal;
use repack_parse::Open;
use repack_scratch::Entry;
use stream_record::{HEAD_OCTETS, Header, Take};
use stream_spec::Shape;

// One record more, which has no fault and an item.
fn add_record(
    s: Shape,
    rec: &[u8],
    h: Header,
    items: &mut [u16],
    table: &mut [Entry],
    state: &mut Open,
)
    requires { Narrow s × Carries s rec.now h × Ready s items.old table.old state.old }
    ensures { Added s rec.now items.old table.old state.old items.new table.new state.new }
{
    state.turn(table, repack_parse::pair_code(h));
    let user = stream_record::load_user(rec, s);
    let lanes = &rec[HEAD_OCTETS..HEAD_OCTETS + s.width];
    state.items = repack_tags::sift_tagged(items, state.items, lanes, h.keep, h.strb, user, s.user);
    state.end(table, h.flags);
}

// Judges and adds the record k of the take. One with no item changes nothing, whatever its pair.
fn read_record(
    s: Shape,
    rec: &[u8],
    k: usize,
    items: &mut [u16],
    table: &mut [Entry],
    state: &mut Open,
) -> Result<(), Refusal>
    requires { Narrow s × (length rec.now ≡ size s) × Ready s items.old table.old state.old }
    ensures { NextIs s rec.now k items.old table.old state.old items.new table.new state.new result }
{
    stream_record::record_fault(s, rec, k)?;
    let h = stream_record::read_header(rec);
    if h.keep + h.flags != 0 {
        add_record(s, rec, h, items, table, state);
    }
    Ok(())
}

// Reads a take: the items' codes, and one entry a stretch into `table`. Answers the number of stretches, or the first fault. A
// helper for the crate stream_repack, which owns the arrays.
pub fn parse(take: &Take<'_>, items: &mut [u16], table: &mut [Entry]) -> Result<usize, Refusal>
    requires { (length items.old ≡ item_room) × (length table.old ≡ stretch_room) }
    ensures { ParsedIs take.now.shape take.now.octets.now items.new table.new result }
{
    let mut state = Open::new();
    for (k, rec) in take.records().enumerate() {
        read_record(take.shape, rec, k, items, table, &mut state)?;
    }
    Ok(state.finish(table))
}
