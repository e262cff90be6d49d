// The report program of paper 01. It reads setup.txt and take.bin in the folder it is run in, writes out.bin where the verdict
// is clean, and prints the report. Nothing is decided here: verdict, text and result are `report_call::report`'s, and what a
// sheet says is in the crate report_setup. How files are read and written is in files.
// Proved is that `report_on` reports on all that it is handed, that what `files::save` is handed is the whole result of a clean
// report with this verdict, and what `files::print` is handed the verdict's whole text. Only code and tests/report show that
// `main` reads those two files into cleared buffers and hands that on, and that a clean result is saved, then the text printed.
#![tactic(auto)]

mod files;

ghost use Rattle.std.specs.Prelude.{◌≤◌, ◌≡◌, length};
ghost use Rattle.report_spec.specs.Report.{report_of, text_most};
ghost use Rattle.report_spec.specs.Promises.{is_clean};
ghost use Rattle.report.specs.Delivery.{known, Tells, Delivers};

use refusal::Refusal;
use report_spec::{Summary, Verdict};
use std::rt::Files;

// The longest sheet has 55 octets: a longer file is read as over-long, and is no sheet.
const SHEET_MOST: usize = 64;

// No text is longer: the `text_most` of report_spec.
const TEXT_MOST: usize = 128;

fn main(rt: HostRuntime) {
    let mut sheet = [0u8; SHEET_MOST];
    let mut text = [0u8; TEXT_MOST];
    let mut take = [0u8; 65536];
    let mut output = [0u8; 65536];
    let setup = files::read_file(&rt, "setup.txt", &mut sheet);
    let capture = files::read_file(&rt, "take.bin", &mut take);
    let told = report_on(setup, capture, &mut output, &mut text);
    deliver(&rt, told, &output, &text);
}

// The report on what was read of the two files.
fn report_on(
    sheet: Option<&[u8]>,
    capture: Option<&[u8]>,
    output: &mut [u8],
    text: &mut [u8],
) -> Summary
    requires { text_most ≤ length text.old }
    ensures { Tells (report_of (known sheet.entry) (known capture.entry) (length output.old)) result output.new text.new }
{
    report_call::report(sheet, capture, output, text)
}

// The result first, and the text only after it: a clean report that is printed has its out.bin, on the disk.
fn deliver(rt: &(impl Files + Print + Eprint), told: Summary, output: &[u8], text: &[u8])
    requires { Delivers told output.now text.now }
{
    if is_clean(told.verdict) && !files::save(rt, told, &output[..told.octets]) {
        return;
    }
    files::print(rt, told, &text[..told.text]);
}

fn is_clean(verdict: Result<Verdict, Refusal>) -> bool
    ensures { result ≡ is_clean verdict }
{
    matches!(verdict, Ok(Verdict::Clean(_)))
}
