// The report as a C function. Reading the sheet and the take from files, and printing, is the program, crate report.
ghost use Rattle.capi.specs.Reports.{ShowsVerdict, ShowsReport};

use refusal::{Code, code_of};
use report_spec::{Summary, Verdict};

// What the report answers: the verdict (0 clean, 1 broken, 2 refused); the refusal's number; the broken rule; the record of
// a refusal or the broken cycle; the counts of a clean take; how many octets of text stand at the front of `text`, and how
// many of result at the front of `out`. What it has not is 0.
#[repr(C)]
#[derive(Clone, Copy, Default)]
pub struct ReportAnswer {
    pub verdict: u32,
    pub refusal: u32,
    pub rule: u32,
    pub place: u64,
    pub transfers: u64,
    pub packets: u64,
    pub records: u64,
    pub text: u64,
    pub octets: u64,
}

impl From<Summary> for ReportAnswer {
    ghost from_gives = { λ told a. ShowsVerdict a told.verdict told.text told.octets };

    fn from(told: Summary) -> ReportAnswer {
        let answer = ReportAnswer {
            text: told.text as u64,
            octets: told.octets as u64,
            ..ReportAnswer::default()
        };
        match told.verdict {
            Ok(Verdict::Clean(t)) => ReportAnswer {
                verdict: 0,
                transfers: t.transfers as u64,
                packets: t.packets as u64,
                records: t.records as u64,
                ..answer
            },
            Ok(Verdict::Broken(cycle, rule)) => ReportAnswer {
                verdict: 1,
                rule,
                place: cycle as u64,
                ..answer
            },
            Err(r) => {
                let Code(refusal, place, _) = code_of(r);
                ReportAnswer {
                    verdict: 2,
                    refusal,
                    place: place as u64,
                    ..answer
                }
            }
        }
    }
}

// The report on a take of cycle records, from the octets of its setup sheet and its own. `sheet_read` and `capture_read`
// are 0 where the file can't be read: no bool crosses the border.
#[unsafe(no_mangle)]
pub extern "C" fn urd_report(
    sheet: &[u8],
    sheet_read: u32,
    capture: &[u8],
    capture_read: u32,
    out: &mut [u8],
    text: &mut [u8],
) -> ReportAnswer
    ensures { ShowsReport result sheet_read sheet.now capture_read capture.now out.old out.new text.old text.new }
{
    report_call::report(
        (sheet_read != 0).then_some(sheet),
        (capture_read != 0).then_some(capture),
        out,
        text,
    )
    .into()
}
