// From sheet and take to the verdict, with the result in the lent output. Each step is a call of the library; the order of the
// tests is paper 01's, with T-06's USERBITS: SHEET, WIDTH, USERBITS, RATIO in lanes mode, LENGTH, FIELD, broken, ROOM.
// A take is the `capture` as it was sampled, `cycles` once it is filled in, and `transfers` once it is harvested.
ghost use Rattle.std.specs.Prelude.{◌≡◌, ◌<◌, IfOk, Ok, option_copied};
ghost use Rattle.std.specs.Result.{result_err};
ghost use Rattle.refusal.specs.Checks.{first};
ghost use Rattle.stream_spec.specs.declared.Verdict.TheVariants.{Clean as Sound};
ghost use Rattle.stream_spec.specs.Answers.{judge_answer};
ghost use Rattle.stream_spec.specs.Walk.{Passed};
ghost use Rattle.report_spec.specs.Report.{shape_of, out_shape, prepared, packet_count, ratio_checks, setup_checks, Passes};
ghost use Rattle.report_call.specs.Steps.{OfSheet, OfCapture, OfCycles, OfClean, OfTransfers, Converts};

use refusal::Refusal;
use report_setup_spec::{Mode, Setup, Tlast};
use report_spec::{Tally, Verdict};
use stream_fill_in::{HIGH, LOW};
use stream_record::Take;
use stream_record::layout::{CAPTURE_MOST, FLAGS, tlast};
use stream_spec::Shape;

// What a take that is not refused comes to: the verdict, and how many octets of result stand at the front of the lent output.
#[derive(Clone, Copy, Debug, PartialEq, Eq)]
pub struct Ending {
    pub verdict: Verdict,
    pub octets: usize,
}

// From the sheet's octets on: SHEET comes first of all, then the sheet's numbers.
pub fn of_sheet(
    sheet: Option<&[u8]>,
    capture: Option<&[u8]>,
    out: &mut [u8],
) -> Result<Ending, Refusal>
    ensures { OfSheet (option_copied sheet.entry) (option_copied capture.entry) out.old out.new result }
{
    let setup = sheet.and_then(report_setup::parse).ok_or(Refusal::Setup)?;
    let job = Job::new(setup)?;
    let capture = capture.ok_or(Refusal::Length)?;
    job.of_capture(capture, out)
}

// The records of the take that a setup is of, and those of its result.
fn shape_of(u: Setup) -> Shape
    ensures { result ≡ shape_of u }
{
    stream_record::shape_of(u.width_in, u.user)
}

fn out_shape(u: Setup) -> Shape
    ensures { result ≡ out_shape u }
{
    stream_record::at_width(shape_of(u), u.width_out)
}

// RATIO in lanes mode.
fn check_ratio(u: Setup) -> Result<(), Refusal>
    requires { 0 < u.width_out }
    ensures { result_err result ≡ first (ratio_checks u.mode (shape_of u) u.width_out) }
{
    match u.mode {
        Mode::Lanes if u.width_in % u.width_out != 0 => Err(Refusal::Ratio),
        _ => Ok(()),
    }
}

// How many of these transfer records have TLAST.
fn packets(transfers: &Take<'_>) -> usize
    ensures { result ≡ packet_count transfers.now.shape transfers.now.octets.now }
{
    let mut n = 0;
    for rec in transfers.records() {
        n += usize::from(tlast(u32::from(rec[FLAGS])));
    }
    n
}

// A setup whose numbers have passed their tests.
#[derive(Clone, Copy)]
struct Job {
    setup: Setup,
    ghost passes: { Passes setup },
}

impl Job {
    // WIDTH of either width, USERBITS, RATIO in lanes mode.
    fn new(setup: Setup) -> Result<Job, Refusal>
        ensures refused { result_err result ≡ first (setup_checks setup) }
        ensures taken { IfOk result (λ job. job.setup ≡ setup) }
    {
        stream_record::check_shapes(shape_of(setup), setup.width_out)?;
        check_ratio(setup)?;
        Ok(Job { setup })
    }

    // LENGTH, then what is in the take, which is copied, so that fill-in leaves the lent take as it is.
    fn of_capture(self, capture: &[u8], out: &mut [u8]) -> Result<Ending, Refusal>
        ensures { OfCapture self.setup capture.now out.old out.new result }
    {
        stream_record::check_length(shape_of(self.setup), capture)?;
        let mut octets = [0u8; CAPTURE_MOST];
        let cycles = &mut octets[..capture.len()];
        cycles.copy_from_slice(capture);
        self.prepare(cycles);
        self.of_cycles(cycles, out)
    }

    // Fill-in, for a port that has no TLAST wire: `tlast=none` is high, `tlast=low` low.
    fn prepare(self, capture: &mut [u8])
        requires { Passed (shape_of self.setup) capture.old }
        ensures { capture.new ≡ prepared self.setup.tlast (shape_of self.setup) capture.old }
    {
        let level = match self.setup.tlast {
            Tlast::Wired => return,
            Tlast::Absent => HIGH,
            Tlast::Low => LOW,
        };
        stream_fill_in::fill_in(shape_of(self.setup), capture, level).unwrap();
    }

    // Of cycles: FIELD, broken, or what follows.
    fn of_cycles(self, cycles: &[u8], out: &mut [u8]) -> Result<Ending, Refusal>
        ensures { OfCycles self.setup cycles.now out.old out.new result }
    {
        match stream_judge::judge(shape_of(self.setup), cycles)? {
            stream_spec::Verdict::Broken(cycle, rule) => Ok(Ending {
                verdict: Verdict::Broken(cycle, rule),
                octets: 0,
            }),
            stream_spec::Verdict::Clean(count) => self.of_clean(count, cycles, out),
        }
    }

    // Of a clean take. Its transfers go into an array of this function's own; they are never longer than a take.
    fn of_clean(self, count: usize, cycles: &[u8], out: &mut [u8]) -> Result<Ending, Refusal>
        requires { judge_answer (shape_of self.setup) cycles.now ≡ Ok (Sound count) }
        ensures { OfClean self.setup count cycles.now out.old out.new result }
    {
        let shape = shape_of(self.setup);
        let mut transfers = [0u8; CAPTURE_MOST];
        stream_harvest::harvest(shape, cycles, &mut transfers).unwrap();
        let octets = &transfers[..count * stream_record::record_size(shape)];
        self.of_transfers(count, &Take { shape, octets }, out)
    }

    // Of `count` harvested transfers: clean, or ROOM.
    fn of_transfers(
        self,
        count: usize,
        transfers: &Take<'_>,
        out: &mut [u8],
    ) -> Result<Ending, Refusal>
        requires { transfers.now.shape ≡ shape_of self.setup }
        ensures { OfTransfers self.setup count transfers.now.octets.now out.old out.new result }
    {
        let packets = packets(transfers);
        let records = self.convert(transfers.octets, out)?;
        Ok(Ending {
            verdict: Verdict::Clean(Tally {
                transfers: count,
                packets,
                records,
            }),
            octets: records * stream_record::record_size(out_shape(self.setup)),
        })
    }

    // Repacking or lane-keeping downsizing.
    fn convert(self, transfers: &[u8], out: &mut [u8]) -> Result<usize, Refusal>
        ensures { Converts self.setup transfers.now out.old out.new result }
    {
        let s = shape_of(self.setup);
        let v = self.setup.width_out;
        match self.setup.mode {
            Mode::Pack => stream_repack::repack(s, v, transfers, out),
            Mode::Lanes => stream_downsize::downsize(s, v, transfers, out),
        }
    }
}
