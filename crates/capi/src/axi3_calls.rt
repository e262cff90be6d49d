// Cutting a burst for AXI3 boards, as a C function. T-10 widens `start` to 64 bits; the row's numbers have them already.
ghost use Rattle.std.specs.Prelude.{◌≡◌};
ghost use Rattle.burst_spec.specs.Answers.{burst_of};
ghost use Rattle.axi3_spec.specs.Answers.{cut_answer, cut_values, numbers_room, numbers_after};
ghost use Rattle.capi.specs.Shows.{ShowsCut};

use burst::burst_of;
use refusal::{Refusal, code_of};

// What cutting a burst answers: the refusal's number, or 0; how many bursts were written. What it has not is 0.
#[repr(C)]
#[derive(Clone, Copy, Default)]
pub struct CutAnswer {
    pub refusal: u32,
    pub count: u64,
}

impl From<Result<usize, Refusal>> for CutAnswer {
    ghost from_gives = { λ r a. ShowsCut a (cut_values r) };

    fn from(answer: Result<usize, Refusal>) -> CutAnswer {
        match answer {
            Ok(n) => CutAnswer {
                refusal: 0,
                count: n as u64,
            },
            Err(r) => CutAnswer {
                refusal: code_of(r).0,
                count: 0,
            },
        }
    }
}

// Cuts a burst into bursts of at most 16 beats, into a lent row of five numbers a burst.
#[unsafe(no_mangle)]
pub extern "C" fn urd_axi3_cut(
    start: u32,
    len: u32,
    size: u32,
    kind: u32,
    bus: u32,
    row: &mut [u64],
) -> CutAnswer
    ensures shows_cut { ShowsCut result (cut_values (cut_answer (burst_of start len size kind bus) (numbers_room row.old))) }
    ensures row_after { row.new ≡ numbers_after (burst_of start len size kind bus) row.old }
{
    axi3::cut_numbers(burst_of(start, len, size, kind, bus), row).into()
}
