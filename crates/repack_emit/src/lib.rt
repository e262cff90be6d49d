// Writes the packed form of a table's stretches, stretch by stretch, where the output has room for it: ROOM is refused here, before
// anything is written. How the records of a stretch are written is told by the type of the items, repack_plain's `Items`.
#![tactic(auto)]

ghost use Rattle.std.specs.Prelude.{◌≡◌, ◌+◌, ◌*◌, ◌-◌, ◌/◌, ◌≤◌, ◌<◌, length};
ghost use Rattle.stream_spec.specs.Layout.{width_most};
ghost use Rattle.stream_spec.specs.Memory.{in_front};
ghost use Rattle.repack_scratch.specs.Codes.{stretch_room, total};
ghost use Rattle.repack_emit.specs.Emit.{packed_from, IsHeadOf, Counts, count_of, Emitted};

use refusal::Refusal;
use repack_plain::{Cursor, Head, Items};
use repack_scratch::Entry;

// How many records a stretch of n items gives.
fn records_of(n: u32, v: u32) -> u32
    requires { (0 < v) × (n < 0x10000) }
    ensures { (result ≡ (n - 1) / v + 1) × (result ≤ 0x10000) }
{
    n.div_ceil(v).max(1)
}

// How many records stretches of 0 to 16 items give.
fn list_counts(v: u32) -> [u32; 17]
    requires { 0 < v }
    ensures { Counts v 17 result }
{
    let mut few = [0; 17];
    for (n, count) in few.iter_mut().enumerate() {
        *count = records_of(n as u32, v);
    }
    few
}

// How many records a stretch of n items gives, by that list where they are few: packets shorter than a record or two are counted
// without a branch that looks at their length.
fn counted(n: u32, v: u32, few: &[u32; 17]) -> u32
    requires { (0 < v) × (n < 0x10000) × Counts v 17 few.now }
    ensures { (result ≡ (n - 1) / v + 1) × (result ≤ 0x10000) }
{
    if n <= 16 {
        return few[n as usize];
    }
    records_of(n, v)
}

// How many records all stretches of a table give.
pub fn count(table: &[Entry], v: u32) -> usize
    requires { (0 < v) × (length table.now ≤ stretch_room) }
    ensures { (result ≡ count_of v table.now) × (result ≤ 0x10000 * stretch_room) }
{
    let few = list_counts(v);
    let mut n = 0;
    for e in table {
        n += counted(e.count(), v, &few) as usize;
    }
    n
}

// The pair and the end of an entry's stretch.
fn head_of(e: Entry) -> Head
    ensures { IsHeadOf e result }
{
    Head {
        pair: e.pair(),
        last: e.last(),
    }
}

// Writes the records of all stretches of a table.
fn put_all<I: Items>(out: &mut [u8], items: &I, table: &[Entry], v: usize)
    requires few { (1 ≤ v) × (v ≤ width_most) × (length table.now ≤ stretch_room) }
    requires held { I.holds items.now 0 (total table.now) }
    requires room { length (packed_from (I.user items.now) v table.now (I.codes items.now)) ≤ length out.old }
    ensures { out.new ≡ in_front (packed_from (I.user items.now) v table.now (I.codes items.now)) out.old }
{
    let mut to = 0;
    let mut from = 0;
    for e in table {
        let left = e.count() as usize;
        to = items.put_stretch(out, Cursor { to, from, left }, v, head_of(*e));
        from += left;
    }
}

// The packed form of the table's stretches at width v, where the output has room for it. Answers the number of its records.
// A helper for the crate stream_repack, which has read the take.
pub fn emit<I: Items>(
    out: &mut [u8],
    items: &I,
    table: &[Entry],
    v: usize,
) -> Result<usize, Refusal>
    requires few { (1 ≤ v) × (v ≤ width_most) × (length table.now ≤ stretch_room) }
    requires held { I.holds items.now 0 (total table.now) }
    ensures { Emitted (I.user items.now) v (I.codes items.now) table.now out.old out.new result }
{
    let n = count(table, v as u32);
    if out.len() < n * items.record_size(v) {
        return Err(Refusal::Room);
    }
    put_all(out, items, table, v);
    Ok(n)
}
