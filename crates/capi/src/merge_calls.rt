// Merging two takes onto one port, as a C function.
ghost use Rattle.std.specs.Prelude.{◌≡◌, length};
ghost use Rattle.stream_spec.specs.Layout.{shaped};
ghost use Rattle.merge_spec.specs.Answers.{merge_answer, merge_after, merged_values};
ghost use Rattle.capi.specs.Shows.{ShowsMerge};

use merge_spec::PortRefusal;
use refusal::{Code, code_of};
use stream_record::shape_of;

// What merging answers: the refusal's number, or 0; the port that it names; its place, the record in that port's list; the count of
// records. A number that an answer does not have is 0.
#[repr(C)]
#[derive(Clone, Copy, Default)]
pub struct MergeAnswer {
    pub refusal: u32,
    pub port: u32,
    pub place: u64,
    pub count: u64,
}

impl From<Result<usize, PortRefusal>> for MergeAnswer {
    ghost from_gives = { λ r a. ShowsMerge a (merged_values r) };

    fn from(answer: Result<usize, PortRefusal>) -> MergeAnswer {
        match answer {
            Ok(n) => MergeAnswer {
                count: n as u64,
                ..MergeAnswer::default()
            },
            Err(named) => {
                let Code(refusal, place, _) = code_of(named.refusal);
                MergeAnswer {
                    refusal,
                    port: named.port,
                    place: place as u64,
                    count: 0,
                }
            }
        }
    }
}

// Merges a take of port 0 and a take of port 1 into a lent output.
#[unsafe(no_mangle)]
pub extern "C" fn urd_merge(
    width: usize,
    user: usize,
    first: &[u8],
    second: &[u8],
    out: &mut [u8],
) -> MergeAnswer
    ensures shows_merge { ShowsMerge result (merged_values (merge_answer (shaped width user) first.now second.now (length out.old))) }
    ensures out_after { out.new ≡ merge_after (shaped width user) first.now second.now out.old }
{
    stream_merge::merge(shape_of(width, user), first, second, out).into()
}
