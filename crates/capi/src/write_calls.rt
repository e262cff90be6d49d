// Judging the beats of the write data channel, as a C function. T-10 widens `start` to 64 bits.
ghost use Rattle.burst_spec.specs.Answers.{burst_of};
ghost use Rattle.write_data_spec.specs.Answers.{write_answer, write_values};
ghost use Rattle.capi.specs.Shows.{ShowsWrite};

use burst::burst_of;
use refusal::{Code, Refusal, code_of};
use write_data_spec::WriteVerdict;

// What judging write beats answers: the refusal's number, or 0; the rule; its beat, of W5 the count given, or the refusal's
// place; the number of high strobes. What it has not is 0.
#[repr(C)]
#[derive(Clone, Copy, Default)]
pub struct WriteAnswer {
    pub refusal: u32,
    pub rule: u32,
    pub place: u64,
    pub strobes: u64,
}

impl From<Result<WriteVerdict, Refusal>> for WriteAnswer {
    ghost from_gives = { λ r a. ShowsWrite a (write_values r) };

    fn from(answer: Result<WriteVerdict, Refusal>) -> WriteAnswer {
        match answer {
            Ok(WriteVerdict::Clean(n)) => WriteAnswer {
                strobes: n as u64,
                ..WriteAnswer::default()
            },
            Ok(WriteVerdict::Broken(place, rule)) => WriteAnswer {
                rule,
                place: place as u64,
                ..WriteAnswer::default()
            },
            Err(r) => {
                let Code(refusal, place, rule) = code_of(r);
                WriteAnswer {
                    refusal,
                    rule,
                    place: place as u64,
                    strobes: 0,
                }
            }
        }
    }
}

// Judges a take of write beats against their burst.
#[unsafe(no_mangle)]
pub extern "C" fn urd_judge_writes(
    start: u32,
    len: u32,
    size: u32,
    kind: u32,
    bus: u32,
    beats: &[u8],
) -> WriteAnswer
    ensures { ShowsWrite result (write_values (write_answer (burst_of start len size kind bus) beats.now)) }
{
    write_data::judge_writes(burst_of(start, len, size, kind, bus), beats).into()
}
