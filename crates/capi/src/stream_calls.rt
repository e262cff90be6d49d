// The stream calls as C functions. Each takes the width of its records and, straight after it, their user bits to a byte.
ghost use Rattle.std.specs.Prelude.{◌≡◌, length};
ghost use Rattle.stream_spec.specs.Layout.{shaped};
ghost use Rattle.stream_spec.specs.Answers.{refusal_values, verdict_values, written_values};
ghost use Rattle.stream_spec.specs.Answers.{judge_answer, harvest_answer, harvest_after, fill_answer, fill_after, repack_answer, repack_after, downsize_answer, downsize_after};
ghost use Rattle.capi.specs.Shows.{flag, ShowsStream, ShowsPart};

use refusal::{Code, Refusal, code_of};
use stream_record::shape_of;
use stream_spec::Verdict;

// What a stream call answers: the refusal's number, or 0; its place, or the broken cycle; the rule; the count of transfers
// or records. What it has not is 0.
#[repr(C)]
#[derive(Clone, Copy, Default)]
pub struct StreamAnswer {
    pub refusal: u32,
    pub rule: u32,
    pub place: u64,
    pub count: u64,
}

impl From<Refusal> for StreamAnswer {
    ghost from_gives = { λ r a. ShowsStream a (refusal_values r) };

    fn from(r: Refusal) -> StreamAnswer {
        let Code(refusal, place, rule) = code_of(r);
        StreamAnswer {
            refusal,
            rule,
            place: place as u64,
            count: 0,
        }
    }
}

// Of a call that writes records.
impl From<Result<usize, Refusal>> for StreamAnswer {
    ghost from_gives = { λ r a. ShowsStream a (written_values r) };

    fn from(answer: Result<usize, Refusal>) -> StreamAnswer {
        match answer {
            Ok(n) => StreamAnswer {
                count: n as u64,
                ..StreamAnswer::default()
            },
            Err(r) => r.into(),
        }
    }
}

// Of judging a take.
impl From<Result<Verdict, Refusal>> for StreamAnswer {
    ghost from_gives = { λ r a. ShowsStream a (verdict_values r) };

    fn from(answer: Result<Verdict, Refusal>) -> StreamAnswer {
        match answer {
            Ok(Verdict::Clean(n)) => StreamAnswer {
                count: n as u64,
                ..StreamAnswer::default()
            },
            Ok(Verdict::Broken(cycle, rule)) => StreamAnswer {
                rule,
                place: cycle as u64,
                ..StreamAnswer::default()
            },
            Err(r) => r.into(),
        }
    }
}

// Judges a take of cycle records.
#[unsafe(no_mangle)]
pub extern "C" fn urd_judge(width: usize, user: usize, capture: &[u8]) -> StreamAnswer
    ensures { ShowsStream result (verdict_values (judge_answer (shaped width user) capture.now)) }
{
    stream_judge::judge(shape_of(width, user), capture).into()
}

// Writes the transfers of a clean take of cycle records into a lent output.
#[unsafe(no_mangle)]
pub extern "C" fn urd_harvest(
    width: usize,
    user: usize,
    capture: &[u8],
    out: &mut [u8],
) -> StreamAnswer
    ensures shows_stream { ShowsStream result (written_values (harvest_answer (shaped width user) capture.now (length out.old))) }
    ensures out_after { out.new ≡ harvest_after (shaped width user) capture.now out.old }
{
    stream_harvest::harvest(shape_of(width, user), capture, out).into()
}

// Sets TLAST in a lent take: low where `level` is 0, else high.
#[unsafe(no_mangle)]
pub extern "C" fn urd_fill_in(
    width: usize,
    user: usize,
    capture: &mut [u8],
    level: u32,
) -> StreamAnswer
    ensures shows_stream { ShowsStream result (written_values (fill_answer (shaped width user) capture.old)) }
    ensures capture_after { capture.new ≡ fill_after (flag level) (shaped width user) capture.old }
{
    stream_fill_in::fill_in(shape_of(width, user), capture, level != 0).into()
}

// Repacks a take of transfer records to width v into a lent output.
#[unsafe(no_mangle)]
pub extern "C" fn urd_repack(
    width: usize,
    user: usize,
    v: usize,
    input: &[u8],
    out: &mut [u8],
) -> StreamAnswer
    ensures shows_stream { ShowsStream result (written_values (repack_answer (shaped width user) v input.now (length out.old))) }
    ensures out_after { out.new ≡ repack_after (shaped width user) v input.now out.old }
{
    stream_repack::repack(shape_of(width, user), v, input, out).into()
}

// Slices a take of transfer records to width v, lane by lane, into a lent output.
#[unsafe(no_mangle)]
pub extern "C" fn urd_downsize(
    width: usize,
    user: usize,
    v: usize,
    input: &[u8],
    out: &mut [u8],
) -> StreamAnswer
    ensures shows_stream { ShowsStream result (written_values (downsize_answer (shaped width user) v input.now (length out.old))) }
    ensures out_after { out.new ≡ downsize_after (shaped width user) v input.now out.old }
{
    stream_downsize::downsize(shape_of(width, user), v, input, out).into()
}

// Where the data octets of a record stand in a take: the refusal's number, or 0 with their offset and their number.
#[repr(C)]
#[derive(Clone, Copy, Default)]
pub struct PartAnswer {
    pub refusal: u32,
    pub start: u64,
    pub length: u64,
}

// The data octets of record k of a take.
#[unsafe(no_mangle)]
pub extern "C" fn urd_data_octets(width: usize, user: usize, capture: &[u8], k: usize) -> PartAnswer
    ensures { ShowsPart result (shaped width user) capture.now k }
{
    let s = shape_of(width, user);
    let refusal = match stream_data::find_data(s, capture, k) {
        Ok(_) => 0,
        Err(r) => code_of(r).0,
    };
    PartAnswer {
        refusal,
        start: stream_data::data_start(s, capture, k) as u64,
        length: stream_data::data_octets(s, capture, k).len() as u64,
    }
}
