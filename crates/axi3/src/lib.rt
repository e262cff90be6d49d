// Cutting a long burst for AXI3 boards, which take at most 16 beats (paper 02, T-02). Every call takes any numbers and refuses
// what is not allowed. What the answers mean is in the crate axi3_spec. `cut` has the form that paper 01 names, a lent row of
// bursts; `cut_row` alone calls it, and all others call `cut_row` or `cut_numbers`, which stand below it.
#![tactic(auto)]

ghost use Rattle.std.specs.Prelude.{◌≡◌, ◌+◌, ◌*◌, ◌≤◌, ◌<◌, min, length};
ghost use Rattle.axi3_spec.specs.Cut.{piece_count, piece};
ghost use Rattle.axi3_spec.specs.Answers.{row_length, blank_row, numbers_each, numbers_of, Cut, CutAlone, CutNumbers};
ghost use Rattle.axi3.specs.Rows.{laid};

use axi3_spec::{CutRow, ROW_LENGTH};
use burst::AcceptedBurst;
use burst_spec::{Burst, Kind};
use refusal::Refusal;

// "Older boards take at most 16 beats".
const BEATS_MOST: u32 = 16;

// How many numbers a description has.
const NUMBERS_EACH: usize = 5;

// Cuts a burst into bursts of at most 16 beats, written to the front of a lent row: how many; or a refusal, 7 to 12 in order,
// then 5 where the row is too short.
pub fn cut(b: Burst, row: &mut [Burst]) -> Result<usize, Refusal>
    ensures { Cut b row.old result row.new }
{
    let accepted = AcceptedBurst::new(b)?;
    let count = piece_count(accepted);
    if row.len() < count {
        return Err(Refusal::Room);
    }
    for (j, place) in row[..count].iter_mut().enumerate() {
        *place = piece(accepted, j);
    }
    Ok(count)
}

// The same into a row of its own, of 16 descriptions, of which at most `room` may be used. What is not used is blank.
pub fn cut_row(b: Burst, room: usize) -> CutRow
    ensures { CutAlone b room result }
{
    let mut bursts = blank_row();
    let answer = cut(b, &mut bursts[..room.min(ROW_LENGTH)]);
    CutRow { answer, bursts }
}

// The same into a lent row of plain numbers, five to a description: start address, AxLEN, AxSIZE, AxBURST, bus. A rest of
// fewer than five is no room.
pub fn cut_numbers(b: Burst, row: &mut [u64]) -> Result<usize, Refusal>
    ensures { CutNumbers b row.old result row.new }
{
    let cut = cut_row(b, row.len() / NUMBERS_EACH);
    let count = cut.answer?;
    put_bursts(&cut.bursts[..count], row);
    Ok(count)
}

// How many bursts an accepted burst is cut into: its beats, in sixteens, rounded up. FIXED and WRAP have 16 at most.
fn piece_count(accepted: AcceptedBurst) -> usize
    ensures { result ≡ piece_count accepted.burst }
{
    (accepted.burst.len / BEATS_MOST + 1) as usize
}

// Burst j of the list.
fn piece(accepted: AcceptedBurst, j: usize) -> Burst
    requires { j < piece_count accepted.burst }
    ensures { result ≡ piece accepted.burst j }
{
    let b = accepted.burst;
    let from = BEATS_MOST * (j as u32);
    Burst {
        start: accepted.address_of(from),
        len: (b.len - from).min(BEATS_MOST - 1),
        ..b
    }
}

// A row of descriptions that say nothing. 16 are room for every cut.
fn blank_row() -> [Burst; ROW_LENGTH]
    ensures { result ≡ blank_row }
{
    let blank = Burst {
        start: 0,
        len: 0,
        size: 0,
        kind: Kind::Fixed,
        bus: 0,
    };
    [blank; ROW_LENGTH]
}

// A description: start address, AxLEN, AxSIZE, AxBURST, bus.
fn numbers_of(b: Burst) -> [u64; NUMBERS_EACH]
    ensures { result ≡ numbers_of b }
{
    [
        u64::from(b.start),
        u64::from(b.len),
        u64::from(b.size),
        u64::from(b.kind),
        u64::from(b.bus),
    ]
}

// Writes descriptions to the front of a row, one after another.
fn put_bursts(bursts: &[Burst], row: &mut [u64])
    requires { numbers_each * length bursts.now ≤ length row.old }
    ensures { row.new ≡ laid bursts.now (length bursts.now) row.old }
{
    for (j, b) in bursts.iter().enumerate() {
        let at = NUMBERS_EACH * j;
        row[at..at + NUMBERS_EACH].copy_from_slice(&numbers_of(*b));
    }
}
