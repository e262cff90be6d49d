// The text of a verdict: LF-ended key=value lines (paper 01, 'The report program'). It is composed in an array of its own,
// so that a lent slice that is too short is not touched.
ghost use Rattle.std.specs.Prelude.{◌≤◌, ◌+◌, ◌++◌, length};
ghost use Rattle.text.specs.Text.{Put};
ghost use Rattle.report_spec.specs.Report.{text_of, text_most};
ghost use Rattle.report_call.specs.Steps.{lines_of, lines_most, Rendered};

use refusal::{Code, Refusal};
use report_spec::Verdict;

// No text is longer: the `text_most` of report_spec, where numbers of 64 bits make 103 octets at most.
const TEXT_MOST: usize = 128;

// Writes a head, and a line for each key, which has its `=`, and number, at the front of `out`.
// stays: octets at places (`write!` proves no text: std's contract says what is written where it answers Ok, and not that it does).
fn put_lines(head: &str, lines: &[(&str, usize)], out: &mut [u8]) -> usize
    requires { length head.now + lines_most lines.now ≤ length out.old }
    ensures { Put 0 (head.now ++ lines_of lines.now) out.old out.new result }
{
    let mut at = text::put_octets(out, 0, head.as_bytes());
    for (key, n) in lines {
        at = text::put_line(out, at, key.as_bytes(), *n);
    }
    at
}

// Writes the verdict's text at the front of `out`.
fn put_text(verdict: Result<Verdict, Refusal>, out: &mut [u8]) -> usize
    requires { text_most ≤ length out.old }
    ensures { Put 0 (text_of verdict) out.old out.new result }
{
    match verdict {
        Ok(Verdict::Clean(t)) => put_lines(
            "verdict=clean\n",
            &[
                ("transfers=", t.transfers),
                ("packets=", t.packets),
                ("records=", t.records),
            ],
            out,
        ),
        Ok(Verdict::Broken(cycle, rule)) => put_lines(
            "verdict=broken\n",
            &[("cycle=", cycle), ("rule=", rule as usize)],
            out,
        ),
        Err(why) => {
            let Code(number, place, _) = refusal::code_of(why);
            put_lines(
                "verdict=refused\n",
                &[("refusal=", number as usize), ("at=", place)],
                out,
            )
        }
    }
}

// Writes the verdict's text at the front of `text` and answers its length; where it does not fit, nothing, and 0.
pub fn render(verdict: Result<Verdict, Refusal>, text: &mut [u8]) -> usize
    ensures { Rendered (text_of verdict) text.old text.new result }
{
    let mut buffer = [0u8; TEXT_MOST];
    let n = put_text(verdict, &mut buffer);
    if text.len() < n {
        return 0;
    }
    text[..n].copy_from_slice(&buffer[..n]);
    n
}
