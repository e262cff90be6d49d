// The report of paper 01 ('The report program') as one function on octets: setup sheet and take in; verdict, text and
// result out. The types are in report_spec, and so is what it must answer: `report_of` of specs/Report. The verdict is reached in
// outcome, its text is made in lines. Reading and writing files is not here: that is the program, crate report.
#![tactic(auto)]

mod lines;
mod outcome;

ghost use Rattle.std.specs.Prelude.{option_copied};
ghost use Rattle.report_spec.specs.Report.{ReportedOn};

use report_spec::Summary;

// The report on a take of cycle records. A file that was not read whole is `None`: one that can't be read, and for a take also one
// that is over-long. Unless the verdict is clean, `out` keeps its content; where `text` is too short for the text, it keeps its
// content.
pub fn report(
    sheet: Option<&[u8]>,
    capture: Option<&[u8]>,
    out: &mut [u8],
    text: &mut [u8],
) -> Summary
    ensures { ReportedOn (option_copied sheet.entry) (option_copied capture.entry) out.old out.new text.old text.new result }
{
    let ending = outcome::of_sheet(sheet, capture, out);
    let verdict = ending.map(|end| end.verdict);
    Summary {
        verdict,
        text: lines::render(verdict, text),
        octets: ending.map_or(0, |end| end.octets),
    }
}
