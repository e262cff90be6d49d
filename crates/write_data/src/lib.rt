// Judging the beats of the write data channel against their burst (paper 02, T-05). The call takes any numbers and octets and refuses
// what is not allowed. What it answers is defined in the crate write_data_spec; a beat's lanes are what `AcceptedBurst::beat` answers. The call comes
// first, then the refusals, the rules of one beat, and its strobes octet by octet.
#![tactic(auto)]

ghost use Rattle.std.specs.Prelude.{◌≡◌, Ok, true, ◌-◌, ◌*◌, ◌≤◌, ◌<◌, min, length};
ghost use Rattle.burst_spec.specs.Answers.{judgement_for};
ghost use Rattle.burst_spec.specs.Checks.{bus_most, bus_allowed};
ghost use Rattle.refusal.specs.Checks.{first};
ghost use Rattle.write_data_spec.specs.Layout.{lanes_each, strobes_at, beat_size, write_beats, wlast, high_strobes};
ghost use Rattle.write_data_spec.specs.Answers.{length_fault, field_fault, take_checks, WritesJudged};
ghost use Rattle.write_data.specs.Scan.{size_most, BeatRecord, octet_stray, stray_below, lowest_rule, Whole, fault_from, Judgeable, verdict_from};

use burst::AcceptedBurst;
use burst_spec::Burst;
use refusal::Refusal;
use stream_record::layout::CAPTURE_MOST;
use write_data_spec::WriteVerdict;

// A beat record: octet 0 has WLAST in bit 0, the strobes follow, eight lanes to an octet.
const FLAGS: usize = 0;

const STROBES: usize = 1;

const LANES_EACH: u32 = 8;

// Judges a take of write beats against their burst: clean with the number of high strobes, or broken with the first beat that breaks a
// rule and the lowest rule it breaks, or a refusal, 7 to 12 in order, then 2, then 3.
pub fn judge_writes(b: Burst, beats: &[u8]) -> Result<WriteVerdict, Refusal>
    ensures { WritesJudged b beats.now result }
{
    let accepted = AcceptedBurst::new(b)?;
    judge_take(b.bus, beats)?;
    Ok(judge_beats(accepted, beats))
}

// The refusals of a take, once its burst is accepted: 2 LENGTH, then 3 FIELD.
fn judge_take(bus: u32, beats: &[u8]) -> Result<(), Refusal>
    requires { bus_allowed bus ≡ true }
    ensures { result ≡ judgement_for (first (take_checks bus beats.now)) }
{
    if bad_length(bus, beats) {
        return Err(Refusal::Length);
    }
    judge_fields(bus, beats)
}

// The octets of a beat record.
fn beat_size(bus: u32) -> usize
    requires { bus ≤ bus_most }
    ensures { result ≡ beat_size bus }
{
    STROBES + bus.div_ceil(LANES_EACH) as usize
}

// 2 LENGTH: too many octets, or no whole number of records.
fn bad_length(bus: u32, beats: &[u8]) -> bool
    requires { bus ≤ bus_most }
    ensures { result ≡ length_fault bus beats.now }
{
    CAPTURE_MOST < beats.len() || beats.len() % beat_size(bus) != 0
}

// 3 FIELD of one record: a flag beside WLAST, or a strobe at or above the bus. A bus of eight lanes or more fills its octets.
fn field_fault(bus: u32, rec: &[u8]) -> bool
    requires { (bus_allowed bus ≡ true) × (length rec.now ≡ beat_size bus) }
    ensures { result ≡ field_fault bus rec.now }
{
    1 < rec[FLAGS] || bus < LANES_EACH && 1u32 << bus <= u32::from(rec[STROBES])
}

// 3 FIELD of all records, those past the last beat too.
fn judge_fields(bus: u32, beats: &[u8]) -> Result<(), Refusal>
    requires { Whole bus beats.now }
    ensures { result ≡ judgement_for (fault_from bus 0 (write_beats bus beats.now)) }
{
    for (k, rec) in beats.chunks_exact(beat_size(bus)).enumerate() {
        if field_fault(bus, rec) {
            return Err(Refusal::Field(k));
        }
    }
    Ok(())
}

// The rules, beat by beat: a beat past the last ends the pass, and where none breaks a rule the count decides.
fn judge_beats(accepted: AcceptedBurst, beats: &[u8]) -> WriteVerdict
    requires { Judgeable accepted.burst beats.now }
    ensures { Ok result ≡ verdict_from accepted.burst 0 (write_beats accepted.burst.bus beats.now) 0 }
{
    let b = accepted.burst;
    let size = beat_size(b.bus);
    let mut high = 0;
    for (k, rec) in beats.chunks_exact(size).enumerate() {
        if let Some(rule) = rule_of(accepted, k, rec) {
            return WriteVerdict::Broken(k, rule);
        }
        high += high_strobes(b.bus, rec);
    }
    let count = beats.len() / size;
    if count <= b.len as usize {
        return WriteVerdict::Broken(count, 5);
    }
    WriteVerdict::Clean(high)
}

// The lowest rule that beat k breaks. W4 comes first here, since no other rule reads a beat past the last.
fn rule_of(accepted: AcceptedBurst, k: usize, rec: &[u8]) -> Option<u32>
    requires { BeatRecord accepted.burst.bus rec.now }
    ensures { result ≡ lowest_rule accepted.burst k rec.now }
{
    let last = accepted.burst.len as usize;
    if last < k {
        return Some(4);
    }
    let beat = accepted.beat(k as u32);
    if any_outside(rec, beat.lower, beat.upper) {
        return Some(1);
    }
    match (k == last, wlast(rec)) {
        (false, true) => Some(2),
        (true, false) => Some(3),
        _ => None,
    }
}

// WLAST of a record.
fn wlast(rec: &[u8]) -> bool
    requires { 1 ≤ length rec.now }
    ensures { result ≡ wlast rec.now }
{
    rec[FLAGS] % 2 == 1
}

// Whether a strobe of a record is high outside these lanes.
fn any_outside(rec: &[u8], lower: u32, upper: u32) -> bool
    requires { (1 ≤ length rec.now) × (length rec.now ≤ size_most) × (upper < bus_most) }
    ensures { result ≡ stray_below (lanes_each * (length rec.now - strobes_at)) rec.now lower upper }
{
    for (i, octet) in rec[STROBES..].iter().enumerate() {
        if octet_outside(*octet, LANES_EACH * i as u32, lower, upper) {
            return true;
        }
    }
    false
}

// The same of one octet, whose lowest strobe is that of `lane`. Most octets are 0 or have all their lanes inside; else the strobes below
// the lower lane are its remainder, and those above the upper lane make it large.
fn octet_outside(octet: u8, lane: u32, lower: u32, upper: u32) -> bool
    requires { (lane ≤ bus_most) × (upper < bus_most) }
    ensures { result ≡ octet_stray octet lane lower upper }
{
    if octet == 0 || lower <= lane && lane + LANES_EACH <= upper + 1 {
        return false;
    }
    let strobes = u32::from(octet);
    let below = lanes_below(lower, lane);
    let end = lanes_below(upper + 1, lane);
    strobes % (1u32 << below) != 0 || 1u32 << end <= strobes
}

// How many of the eight lanes from `lane` on lie below this one.
fn lanes_below(bound: u32, lane: u32) -> u32
    ensures { result ≡ min lanes_each (bound - lane) }
{
    bound.saturating_sub(lane).min(LANES_EACH)
}

// The high strobes of a record.
fn high_strobes(bus: u32, rec: &[u8]) -> usize
    requires { BeatRecord bus rec.now }
    ensures { (result ≡ high_strobes bus rec.now) × (result ≤ bus_most) }
{
    rec[STROBES..]
        .iter()
        .map(|octet| octet.count_ones() as usize)
        .sum()
}
