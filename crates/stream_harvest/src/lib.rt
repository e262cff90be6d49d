// Harvesting: the transfers of a judged take, written into a lent output. What is written is stream_spec's `harvested`, and
// the rules that a take must keep are judged by the crate stream_judge. No rule is read here, and nothing is repacked.
#![tactic(auto)]

ghost use Rattle.std.specs.Prelude.{◌≡◌, ◌+◌, ◌≤◌, length, take, drop};
ghost use Rattle.words.specs.Splice.{splice};
ghost use Rattle.stream_spec.specs.Handshake.{as_transfer, harvested};
ghost use Rattle.stream_spec.specs.Memory.{in_front};
ghost use Rattle.stream_spec.specs.Answers.{Harvested};
ghost use Rattle.stream_harvest.specs.Filling.{RecordFits, CycleFits, CyclePut};

use refusal::Refusal;
use stream_record::Take;
use stream_record::layout::{FLAGS, SIZE_LEAST};
use stream_spec::{Shape, Verdict};

// The octets that are moved at a time.
const WORD: usize = 8;

// Eight octets of a record, to the same place of `out`.
fn move_word(rec: &[u8], out: &mut [u8], at: usize)
    requires { (at + 8 ≤ length rec.now) × (at + 8 ≤ length out.old) }
    ensures { out.new ≡ splice at (take 8 (drop at rec.now)) out.old }
{
    words::store(out, at, words::load::<u64>(rec, at));
}

// The first eight octets of a record at the front of `out`: of octet 0 its TLAST alone.
fn move_front(rec: &[u8], out: &mut [u8])
    requires { RecordFits rec.now out.old }
    ensures { out.new ≡ splice 0 (take 8 (as_transfer rec.now)) out.old }
{
    let word: u64 = words::load(rec, 0);
    words::store(out, 0, word - word % 0x100 + word % 2);
}

// Writes the cycle record `rec` as a transfer record at the front of `out`: octet 0 has TLAST alone, and the others are
// as sampled. Eight octets are moved at a time; the last eight may overlap those before them.
fn put_transfer(rec: &[u8], out: &mut [u8])
    requires { RecordFits rec.now out.old }
    ensures { out.new ≡ in_front (as_transfer rec.now) out.old }
{
    // stays: words and not copy_from_slice (tried, proved, too slow: 1.46 of the yardstick's time at width 1)
    let n = rec.len();
    move_front(rec, out);
    if n == SIZE_LEAST {
        return;
    }
    if 2 * WORD < n {
        move_word(rec, out, WORD);
    }
    if 3 * WORD < n {
        move_word(rec, out, 2 * WORD);
    }
    move_word(rec, out, n - WORD);
}

// Writes the record of one cycle at the front of `out`, if it is a transfer, and answers how many octets it wrote.
fn put_cycle(rec: &[u8], out: &mut [u8]) -> usize
    requires { CycleFits rec.now out.old }
    ensures { CyclePut rec.now out.old out.new result }
{
    if !stream_judge::is_transfer(u32::from(rec[FLAGS])) {
        return 0;
    }
    put_transfer(rec, out);
    rec.len()
}

// Writes the transfers of a clean take for which there is room.
fn put_cycles(take: &Take<'_>, out: &mut [u8])
    requires { length (harvested take.now.shape take.now.octets.now) ≤ length out.old }
    ensures { out.new ≡ in_front (harvested take.now.shape take.now.octets.now) out.old }
{
    // stays: a place counted (over chunks_exact_mut no proof closes: after such a loop only the length of `out` is known)
    let mut to = 0;
    for rec in take.records() {
        to += put_cycle(rec, &mut out[to..]);
    }
}

// Harvests a take of cycle records: the number of transfers, which stand at the front of `out` as transfer records; or a
// refusal, and nothing is written.
pub fn harvest(s: Shape, capture: &[u8], out: &mut [u8]) -> Result<usize, Refusal>
    ensures { Harvested s capture.now out.old out.new result }
{
    match stream_judge::judge(s, capture)? {
        Verdict::Broken(cycle, rule) => Err(Refusal::Unclean(cycle, rule)),
        Verdict::Clean(count) => {
            let take = Take {
                shape: s,
                octets: capture,
            };
            if out.len() < count * stream_record::record_size(s) {
                return Err(Refusal::Room);
            }
            put_cycles(&take, out);
            Ok(count)
        }
    }
}
