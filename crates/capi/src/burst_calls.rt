// The burst calls as C functions. T-10 widens `start` to 64 bits; the answer's address has them already.
ghost use Rattle.burst_spec.specs.Answers.{burst_of, judgement, beat_answer, step_answer, judgement_values, beat_values, step_values, refusal_values};
ghost use Rattle.capi.specs.Shows.{ShowsBurst};

use burst_spec::Beat;
use refusal::{Refusal, code_of};

// What a burst call answers: the refusal's number, or 0; a beat's address and byte lanes; a step. What it has not is 0.
#[repr(C)]
#[derive(Clone, Copy, Default)]
pub struct BurstAnswer {
    pub refusal: u32,
    pub lower: u32,
    pub upper: u32,
    pub step: i32,
    pub address: u64,
}

impl From<Refusal> for BurstAnswer {
    ghost from_gives = { λ r a. ShowsBurst a (refusal_values r) };

    fn from(r: Refusal) -> BurstAnswer {
        BurstAnswer {
            refusal: code_of(r).0,
            ..BurstAnswer::default()
        }
    }
}

// Of judging a burst.
impl From<Result<(), Refusal>> for BurstAnswer {
    ghost from_gives = { λ r a. ShowsBurst a (judgement_values r) };

    fn from(answer: Result<(), Refusal>) -> BurstAnswer {
        match answer {
            Ok(()) => BurstAnswer::default(),
            Err(r) => r.into(),
        }
    }
}

// Of asking for a beat.
impl From<Result<Beat, Refusal>> for BurstAnswer {
    ghost from_gives = { λ r a. ShowsBurst a (beat_values r) };

    fn from(answer: Result<Beat, Refusal>) -> BurstAnswer {
        match answer {
            Ok(beat) => BurstAnswer {
                lower: beat.lower,
                upper: beat.upper,
                address: u64::from(beat.address),
                ..BurstAnswer::default()
            },
            Err(r) => r.into(),
        }
    }
}

// Of asking for a step.
impl From<Result<i32, Refusal>> for BurstAnswer {
    ghost from_gives = { λ r a. ShowsBurst a (step_values r) };

    fn from(answer: Result<i32, Refusal>) -> BurstAnswer {
        match answer {
            Ok(step) => BurstAnswer {
                step,
                ..BurstAnswer::default()
            },
            Err(r) => r.into(),
        }
    }
}

// Whether a burst is allowed.
#[unsafe(no_mangle)]
pub extern "C" fn urd_burst_judge(
    start: u32,
    len: u32,
    size: u32,
    kind: u32,
    bus: u32,
) -> BurstAnswer
    ensures { ShowsBurst result (judgement_values (judgement (burst_of start len size kind bus))) }
{
    burst::judge_numbers(start, len, size, kind, bus).into()
}

// Beat k of a burst.
#[unsafe(no_mangle)]
pub extern "C" fn urd_burst_beat(
    start: u32,
    len: u32,
    size: u32,
    kind: u32,
    bus: u32,
    k: u32,
) -> BurstAnswer
    ensures { ShowsBurst result (beat_values (beat_answer (burst_of start len size kind bus) k)) }
{
    burst::beat(burst::burst_of(start, len, size, kind, bus), k).into()
}

// The step from beat k of a burst to the next one.
#[unsafe(no_mangle)]
pub extern "C" fn urd_burst_step(
    start: u32,
    len: u32,
    size: u32,
    kind: u32,
    bus: u32,
    k: u32,
) -> BurstAnswer
    ensures { ShowsBurst result (step_values (step_answer (burst_of start len size kind bus) k)) }
{
    burst::step(burst::burst_of(start, len, size, kind, bus), k).into()
}
