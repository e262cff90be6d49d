// The public call `merge`: two takes of transfer records onto one port, turn by turn, or a refusal. For each record `pick` returns the
// next one as a part of the take that holds it, and only then `put_picked` copies it. What the merged list is stands in merge_spec;
// which octet of a record is what is in stream_record. Nothing is repacked here.
#![tactic(auto)]

ghost use Rattle.std.specs.Prelude.{◌≡◌, true, false, ◌+◌, ◌≤◌, ◌<◌, length, take, drop};
ghost use Rattle.std.specs.Option.{option_map};
ghost use Rattle.std.specs.Result.{result_err, result_ok};
ghost use Rattle.refusal.specs.Checks.{first};
ghost use Rattle.words.specs.Splice.{splice};
ghost use Rattle.stream_spec.specs.Layout.{size};
ghost use Rattle.stream_spec.specs.Memory.{in_front};
ghost use Rattle.stream_spec.specs.Walk.{Narrow};
ghost use Rattle.merge_spec.specs.Merge.{tid, merged};
ghost use Rattle.merge_spec.specs.Answers.{named, port_faults, port_checks, PortsMerged};
ghost use Rattle.stream_merge.specs.Merging.{Copies, sent_as, last_of, Ready, Passes, ListsFit};

use merge_spec::PortRefusal;
use refusal::Refusal;
use stream_record::Take;
use stream_record::layout::{FLAGS, TID, tlast};
use stream_spec::Shape;

// So much is added to port 1's TIDs. A TID from here on is refused.
const TID_ADDED: u8 = 0x80;

// What is left of port 0's take and of port 1's, and whether port 1 has the turn. A port with nothing left has no turn, unless
// neither has anything.
#[derive(Clone, Copy)]
struct Turn<'a> {
    port1: bool,
    left0: &'a [u8],
    left1: &'a [u8],
}

impl<'a> Turn<'a> {
    ghost use Rattle.stream_merge.specs.Merging.{IsTurn, IsTurnBehind, TurnFits, picked_from};

    // Where `wanted` says that the turn comes to port 1: a port with nothing left is skipped.
    fn new(wanted: bool, left0: &'a [u8], left1: &'a [u8]) -> Turn<'a>
        ensures { IsTurn wanted left0.now left1.now result }
    {
        Turn {
            port1: if wanted {
                !left1.is_empty()
            } else {
                left0.is_empty()
            },
            left0,
            left1,
        }
    }

    // The next record, of z octets, as a part of whichever take holds it.
    fn pick(self, z: usize) -> &'a [u8]
        requires { TurnFits z self }
        ensures { result.now ≡ picked_from z self.entry }
    {
        if self.port1 {
            return &self.left1[..z];
        }
        &self.left0[..z]
    }

    // The turn behind that record; after TLAST it goes over.
    fn behind(self, z: usize, last: bool) -> Turn<'a>
        requires { TurnFits z self }
        ensures { IsTurnBehind z last self.entry result }
    {
        if self.port1 {
            Turn::new(!last, self.left0, &self.left1[z..])
        } else {
            Turn::new(last, &self.left0[z..], self.left1)
        }
    }
}

// The refusal for the transfer record k of its list: 3, 4, then 17.
fn port_fault(s: Shape, rec: &[u8], k: usize) -> Result<(), Refusal>
    requires { Narrow s × (length rec.now ≡ size s) }
    ensures { result_err result ≡ first (port_faults s k rec.now) }
{
    stream_record::record_fault(s, rec, k)?;
    if TID_ADDED <= rec[TID] {
        return Err(Refusal::Tags(k));
    }
    Ok(())
}

// The first refusal for the records of a port's take.
fn find_port_fault(take: &Take<'_>) -> Result<(), Refusal>
    ensures { result_err result ≡ first (port_checks take.now.shape take.now.octets.now) }
{
    let s = take.shape;
    take.first_fault(|k, rec| port_fault(s, rec, k))
}

// The octets that are copied at a time.
const WORD: usize = 8;

// Eight octets of a record, to the same place of `out`.
fn move_word(rec: &[u8], out: &mut [u8], at: usize)
    requires { (at + 8 ≤ length rec.now) × (at + 8 ≤ length out.old) }
    ensures { out.new ≡ splice at (take 8 (drop at rec.now)) out.old }
{
    words::store(out, at, words::load::<u64>(rec, at));
}

// A record at the front of `out`, eight octets at a time; the last eight may overlap those before them.
// stays: tried, `copy_from_slice` and a loop over the words both miss the times of docs/PERFORMANCE.md, 'Merging' (D72).
fn copy_record(rec: &[u8], out: &mut [u8])
    requires { Copies rec.now out.old }
    ensures { out.new ≡ in_front rec.now out.old }
{
    let n = rec.len();
    move_word(rec, out, 0);
    if 2 * WORD < n {
        move_word(rec, out, WORD);
    }
    if 3 * WORD < n {
        move_word(rec, out, 2 * WORD);
    }
    move_word(rec, out, n - WORD);
}

// The picked record at the front of `out`, which is lent from its offset on. Port 1's TID goes out with 128 added.
fn put_picked(rec: &[u8], out: &mut [u8], port1: bool)
    requires { Copies rec.now out.old × (port1 ≡ true → tid rec.now < 128) }
    ensures { out.new ≡ in_front (sent_as port1 rec.now) out.old }
{
    copy_record(rec, out);
    if port1 {
        out[TID] = rec[TID] + TID_ADDED;
    }
}

// Whether a record is the last of its turn.
fn ends_turn(rec: &[u8]) -> bool
    requires { 1 ≤ length rec.now }
    ensures { result ≡ last_of rec.now }
{
    tlast(u32::from(rec[FLAGS]))
}

// One record: it is picked, and only then copied to place `to`. Answers the turn behind it.
fn pass_on<'a>(t: Turn<'a>, z: usize, out: &mut [u8], to: usize) -> Turn<'a>
    requires { Ready z t out.old to }
    ensures { Passes z t.entry out.old to out.new result }
{
    let rec = t.pick(z);
    put_picked(rec, &mut out[to..], t.port1);
    t.behind(z, ends_turn(rec))
}

// All records of both takes, which are sound and find room. Port 0 has the first turn.
fn put_all(first: &Take<'_>, second: &Take<'_>, out: &mut [u8])
    requires { ListsFit first.now second.now out.old }
    ensures { out.new ≡ in_front (merged first.now.shape first.now.octets.now second.now.octets.now) out.old }
{
    let z = stream_record::record_size(first.shape);
    let total = first.octets.len() + second.octets.len();
    let mut t = Turn::new(false, first.octets, second.octets);
    for to in (0..total).step_by(z) {
        t = pass_on(t, z, out, to);
    }
}

// What a test of a port's take answers, with the port that is named where it refuses.
fn at_port<T>(port: u32, tested: Result<T, Refusal>) -> Result<T, PortRefusal>
    ensures refused { result_err result ≡ option_map (named port) (result_err tested) }
    ensures passed { result_ok result ≡ result_ok tested }
{
    tested.map_err(|refusal| PortRefusal { port, refusal })
}

// Merges the takes `first` of port 0 and `second` of port 1, of shape s both, into `out`. Answers the number of records written, or
// refuses with the port: 1 and 16 (port 0), 2 for `first` and for `second`, then record by record of `first` and then of `second` 3, 4
// and 17, then 5 (port 0). Refused, `out` keeps its content.
pub fn merge(s: Shape, first: &[u8], second: &[u8], out: &mut [u8]) -> Result<usize, PortRefusal>
    ensures { PortsMerged s first.now second.now out.old out.new result }
{
    let take0 = at_port(0, Take::new(s, first))?;
    let take1 = at_port(1, Take::new(s, second))?;
    at_port(0, find_port_fault(&take0))?;
    at_port(1, find_port_fault(&take1))?;
    let total = first.len() + second.len();
    if out.len() < total {
        return Err(PortRefusal {
            port: 0,
            refusal: Refusal::Room,
        });
    }
    put_all(&take0, &take1, out);
    Ok(total / stream_record::record_size(s))
}
