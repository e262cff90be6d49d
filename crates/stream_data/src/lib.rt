// The data octets of record k of a take, handed out as that very part of the caller's slice, or the refusal where there is no
// such part.
#![tactic(auto)]

ghost use Rattle.std.specs.Prelude.{◌≡◌, ◌+◌, ◌≤◌, length, IfOk};
ghost use Rattle.stream_spec.specs.Answers.{LookedUp, data_part, data_start};
ghost use Rattle.stream_data.specs.Found.{refusal_of};

use refusal::Refusal;
use stream_record::{HEAD_OCTETS, Take, record_size};
use stream_spec::Shape;

// Where the data octets of record k start in the take.
fn find_start(s: Shape, capture: &[u8], k: usize) -> Result<usize, Refusal>
    ensures looked { LookedUp s capture.now k (refusal_of result) }
    ensures start { IfOk result (λ start. start ≡ data_start s capture.now k) }
    ensures within { IfOk result (λ start. start + s.width ≤ length capture.now) }
{
    Take::new(s, capture)?;
    let size = record_size(s);
    if capture.len() / size <= k {
        return Err(Refusal::Index);
    }
    Ok(k * size + HEAD_OCTETS)
}

// The data octets of record k: the part of the take that starts at data_start.
pub fn find_data(s: Shape, capture: &[u8], k: usize) -> Result<&[u8], Refusal>
    ensures looked { LookedUp s capture.now k (refusal_of result) }
    ensures part { IfOk result (λ part. part.now ≡ data_part s capture.now k) }
{
    let start = find_start(s, capture, k)?;
    let end = start + s.width;
    Ok(&capture[start..end])
}

// Where the part starts that find_data hands out, or 0 where it refuses, also for callers who cannot be handed a part of a
// slice. No data starts at 0, where the first record's header stands.
pub fn data_start(s: Shape, capture: &[u8], k: usize) -> usize
    ensures { result ≡ data_start s capture.now k }
{
    find_start(s, capture, k).unwrap_or(0)
}

// The part that find_data hands out, or an empty one where it refuses.
pub fn data_octets(s: Shape, capture: &[u8], k: usize) -> &[u8]
    ensures { result.now ≡ data_part s capture.now k }
{
    find_data(s, capture, k).unwrap_or(&capture[..0])
}
