// The public call `repack`: a take of transfer records as its packed form at another width, or a refusal. A take without user bits
// is read in repack_parse, which knows a record by its width; one with user bits in repack_tagged_parse. Both are written in
// repack_emit, by the type of their items.
#![tactic(auto)]

ghost use Rattle.std.specs.Prelude.{◌≡◌, None};
ghost use Rattle.refusal.specs.Checks.{first};
ghost use Rattle.stream_spec.specs.Answers.{Repacked};
ghost use Rattle.stream_repack.specs.Tests.{input_checks};

use refusal::Refusal;
use repack_marked::Marked;
use repack_plain::Plain;
use repack_scratch::{Entry, ITEM_ROOM, MARK_ROOM, STRETCH_ROOM};
use repack_tags::Tagged;
use stream_record::Take;
use stream_spec::Shape;

// Records without user bits. Three arrays hold what the take carries: an octet and a mark for each item, an entry for each
// stretch; nothing is written to `out` before all records are read and the answer is known to fit. Not made part of `repack`, and
// nor is convert_tagged: in one function the loops over position lanes took a quarter more time.
#[inline(never)]
fn convert_bare(take: &Take<'_>, v: usize, out: &mut [u8]) -> Result<usize, Refusal>
    requires bare { take.now.shape.user ≡ 0 }
    requires tested { first (input_checks take.now.shape v take.now.octets.now) ≡ None }
    ensures { Repacked take.now.shape v take.now.octets.now out.old out.new result }
{
    let mut octets = [0u8; ITEM_ROOM];
    let mut marks = [0u8; MARK_ROOM];
    let mut table = [Entry(0); STRETCH_ROOM];
    let parsed = repack_parse::parse(take, &mut octets, &mut marks, &mut table)?;
    let stretches = &table[..parsed.stretches];
    if parsed.plain {
        repack_emit::emit(out, &Plain { octets: &octets }, stretches, v)
    } else {
        repack_emit::emit(out, &Marked::new(&octets, &marks), stretches, v)
    }
}

// Records with user bits. Two arrays hold what the take carries: a code for each item, which has its octet, its strobe and its
// user bits, and an entry for each stretch.
#[inline(never)]
fn convert_tagged(take: &Take<'_>, v: usize, out: &mut [u8]) -> Result<usize, Refusal>
    requires { first (input_checks take.now.shape v take.now.octets.now) ≡ None }
    ensures { Repacked take.now.shape v take.now.octets.now out.old out.new result }
{
    let mut codes = [0u16; ITEM_ROOM];
    let mut table = [Entry(0); STRETCH_ROOM];
    let n = repack_tagged_parse::parse(take, &mut codes, &mut table)?;
    let items = Tagged {
        items: &codes,
        user: take.shape.user,
    };
    repack_emit::emit(out, &items, &table[..n], v)
}

// Repacks the take `transfers` of shape s to width v into `out`. Answers the number of records written, or refuses: 1 for
// either width, 16, 2, then record by record 3 before 4, then 5. Refused, `out` keeps its content.
pub fn repack(s: Shape, v: usize, transfers: &[u8], out: &mut [u8]) -> Result<usize, Refusal>
    ensures { Repacked s v transfers.now out.old out.new result }
{
    let take = Take::for_width(s, v, transfers)?;
    if s.user == 0 {
        convert_bare(&take, v, out)
    } else {
        convert_tagged(&take, v, out)
    }
}
