// Fill-in of TLAST, for ports that have no such wire: bit 0 of octet 0 of every record of a lent take is set to a level, and
// nothing else is touched. Judging is in the crate stream_judge, harvesting in stream_harvest.
#![tactic(auto)]

ghost use Rattle.std.specs.Prelude.{◌≡◌, ◌<◌, length};
ghost use Rattle.stream_spec.specs.Handshake.{with_last};
ghost use Rattle.stream_spec.specs.Answers.{FilledIn};
ghost use Rattle.stream_spec.specs.Walk.{Passed};
ghost use Rattle.stream_fill_in.specs.Filling.{Filled};

use refusal::Refusal;
use stream_record::layout::FLAGS;
use stream_record::{Take, record_size};
use stream_spec::Shape;

// The two levels of a wire.
pub const LOW: bool = false;

pub const HIGH: bool = true;

// Sets TLAST of the record at the front of `rec`.
fn put_last(rec: &mut [u8], level: bool)
    requires { 0 < length rec.old }
    ensures { rec.new ≡ with_last level rec.old }
{
    rec[FLAGS] = rec[FLAGS] / 2 * 2 + u8::from(level);
}

// Sets TLAST of each record, and answers how many there are. Shape and length have passed their tests.
fn fill(s: Shape, capture: &mut [u8], level: bool) -> usize
    requires { Passed s capture.old }
    ensures { Filled level s capture.old capture.new result }
{
    let size = record_size(s);
    let count = capture.len() / size;
    // stays: by place (tried chunks_exact_mut, no proof closes: after such a loop only the length of `capture` is known)
    for k in 0..count {
        put_last(&mut capture[k * size..], level);
    }
    count
}

// Fill-in: TLAST of every record of the lent take becomes this level, true for high. Only a shape or a length is refused.
pub fn fill_in(s: Shape, capture: &mut [u8], level: bool) -> Result<usize, Refusal>
    ensures { FilledIn level s capture.old capture.new result }
{
    Take::new(s, capture)?;
    Ok(fill(s, capture, level))
}
