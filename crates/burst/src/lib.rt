// Judging AXI4 bursts, and the address, byte lanes and step of each beat (paper 01, 'Bursts'). Every call takes any numbers
// and refuses what is not allowed. What the answers mean is in the crate burst_spec. The calls come first, then an accepted burst
// and its beats, which axi3 and write_data ask too; then, private to this file, the tests of the refusals and the arithmetic on
// addresses.
#![tactic(auto)]

ghost use Rattle.std.specs.Prelude.{Err, IfOk, IfErr, not, min, ◌≡◌, ◌/◌, ◌%◌, ◌^◌, ◌≤◌, ◌<◌};
ghost use Rattle.std.proofs.Math.IntN.{sub_ℕ};
ghost use Rattle.burst_spec.specs.Address.{bytes, beats, round_down, beat_address, beat_at, beat_of};
ghost use Rattle.burst_spec.specs.Answers.{kind_of, burst_of, judgement, Judged, BeatGiven, StepGiven};
ghost use Rattle.burst_spec.specs.Checks.{block, axsize_most, bus_most, bus_allowed, too_wide, is_reserved, count_allowed, count_refused, misaligned, crosses};
ghost use Rattle.burst_spec.specs.Legal.{Power, Legal, Accepted};
ghost use Rattle.burst_spec.specs.declared.Kind.TheVariants.{Incr, Wrap};

use burst_spec::{Address, Beat, Burst, Kind};
use refusal::Refusal;

// The bounds of paper 01's table: "AxSIZE above 7", "AxLEN above 255", and the 4KB block.
const AXSIZE_MOST: u32 = 7;

const AXLEN_MOST: u32 = 255;

const BLOCK: Address = 0x1000;

// The kind with this AxBURST number. Every number from 3 on is the reserved kind, which is refused after BUS and SIZE.
pub fn kind_of(number: u32) -> Kind
    ensures { result ≡ kind_of number }
{
    Kind::from(number)
}

// The burst of five plain numbers: start address, AxLEN, AxSIZE, AxBURST, bus.
pub fn burst_of(start: Address, len: u32, size: u32, kind: u32, bus: u32) -> Burst
    ensures { result ≡ burst_of start len size kind bus }
{
    Burst {
        start,
        len,
        size,
        kind: kind_of(kind),
        bus,
    }
}

// Whether a burst is allowed, and if not, the first of refusals 7 to 12 that holds.
pub fn judge(b: Burst) -> Result<(), Refusal>
    ensures { Judged b result }
{
    if bus_refused(b.bus) {
        return Err(Refusal::Bus);
    }
    if too_wide(b) {
        return Err(Refusal::Size);
    }
    if is_reserved(b.kind) {
        return Err(Refusal::Kind);
    }
    if count_refused(b) {
        return Err(Refusal::Count);
    }
    if start_refused(b) {
        return Err(Refusal::Align);
    }
    if leaves_block(b) {
        return Err(Refusal::Boundary);
    }
    Ok(())
}

// The same of five plain numbers.
pub fn judge_numbers(
    start: Address,
    len: u32,
    size: u32,
    kind: u32,
    bus: u32,
) -> Result<(), Refusal>
    ensures { Judged (burst_of start len size kind bus) result }
{
    judge(burst_of(start, len, size, kind, bus))
}

// Beat k of a burst, counted from 0: its address and byte lanes; or a refusal, 7 to 12 in order, then 13.
pub fn beat(b: Burst, k: u32) -> Result<Beat, Refusal>
    ensures { BeatGiven b k result }
{
    let accepted = AcceptedBurst::new(b)?;
    if b.len < k {
        return Err(Refusal::Index);
    }
    Ok(accepted.beat(k))
}

// The step from beat k to beat k + 1; or a refusal, 7 to 12 in order, then 13 where there is no next beat.
pub fn step(b: Burst, k: u32) -> Result<i32, Refusal>
    ensures { StepGiven b k result }
{
    let accepted = AcceptedBurst::new(b)?;
    if b.len <= k {
        return Err(Refusal::Index);
    }
    let from = accepted.address_inside(k);
    let to = accepted.address_inside(k + 1);
    Ok(distance(from, to))
}

// The tests of refusals 7 to 12: true where the burst is refused for it. A test counts only on those before it.

// 7 BUS: the bus is none of these.
fn bus_refused(bus: u32) -> bool
    ensures { result ≡ not (bus_allowed bus) }
{
    !matches!(bus, 1 | 2 | 4 | 8 | 16 | 32 | 64 | 128)
}

// 8 SIZE: AxSIZE is above 7, which is tested before any shift by it, or a beat is wider than the bus.
fn too_wide(b: Burst) -> bool
    ensures { result ≡ too_wide b }
{
    AXSIZE_MOST < b.size || wide(b.bus) < bytes_of(b.size)
}

// 9 TYPE: the kind is reserved.
fn is_reserved(kind: Kind) -> bool
    ensures { result ≡ is_reserved kind }
{
    kind == Kind::Reserved
}

// How many beats each kind allows: the numbers of paper 01, in the form that it names.
fn count_allowed(kind: Kind, beats: u32) -> bool
    ensures { result ≡ count_allowed kind beats }
{
    match kind {
        Kind::Fixed => matches!(beats, 1..=16),
        Kind::Incr => matches!(beats, 1..=256),
        Kind::Wrap => matches!(beats, 2 | 4 | 8 | 16),
        Kind::Reserved => false,
    }
}

// 10 COUNT: AxLEN is above 255, which is tested before one is added to it, or so many beats are not allowed.
fn count_refused(b: Burst) -> bool
    ensures { result ≡ count_refused b }
{
    AXLEN_MOST < b.len || !count_allowed(b.kind, b.len + 1)
}

// 11 ALIGN: a WRAP start that is no multiple of the beat's bytes.
fn start_refused(b: Burst) -> bool
    requires { b.size ≤ axsize_most }
    ensures { result ≡ misaligned b.kind b.start (bytes b) }
{
    b.kind == Kind::Wrap && low_part(b.start, bytes_of(b.size)) != 0
}

// 12 FENCE, the 4KB rule: only INCR can run out of the start's block, and does if the beats from the aligned address on do
// not fit into what the block has left. Worked out by offsets in the block, so nothing overflows at the top of memory.
fn leaves_block(b: Burst) -> bool
    requires { Legal b }
    ensures { result ≡ crosses b }
{
    if b.kind != Kind::Incr {
        return false;
    }
    let bytes = bytes_of(b.size);
    let aligned = round_down(b.start, bytes);
    let offset = low_part(aligned, BLOCK);
    let beats = wide(b.len + 1);
    BLOCK < offset + beats * bytes
}

// A burst that is allowed, so its beats can be asked for without another test.
#[derive(Clone, Copy)]
pub struct AcceptedBurst {
    pub burst: Burst,
    ghost accepted: { Accepted burst },
}

impl AcceptedBurst {
    // The burst, where it is allowed; or the first of refusals 7 to 12 that holds.
    pub fn new(burst: Burst) -> Result<AcceptedBurst, Refusal>
        ensures accepted { IfOk result (λ a. a.burst ≡ burst) }
        ensures refused { IfErr result (λ r. judgement burst ≡ Err r) }
    {
        judge(burst)?;
        Ok(AcceptedBurst { burst })
    }

    // Beat k, counted from 0; past the last beat, the last one.
    pub fn beat(self, k: u32) -> Beat
        ensures { result ≡ beat_of self.burst (min k self.burst.len) }
    {
        beat_at(self.burst, self.address_of(k))
    }

    // The address of beat k; past the last beat, that of the last one.
    pub fn address_of(self, k: u32) -> Address
        ensures { result ≡ beat_address self.burst (min k self.burst.len) }
    {
        self.address_inside(k.min(self.burst.len))
    }

    // The address of a beat that the burst has.
    fn address_inside(self, k: u32) -> Address
        requires { k < beats self.burst }
        ensures { result ≡ beat_address self.burst k }
    {
        let b = self.burst;
        match b.kind {
            Kind::Fixed => b.start,
            Kind::Incr => self.incr_address(k),
            Kind::Wrap => self.wrap_address(k),
            Kind::Reserved => b.start,
        }
    }

    // INCR: beat 0 is at the start, beat k at the aligned address and k beats further.
    fn incr_address(self, k: u32) -> Address
        requires { (self.burst.kind ≡ Incr) × (k < beats self.burst) }
        ensures { result ≡ beat_address self.burst k }
    {
        let b = self.burst;
        let start = b.start;
        if k == 0 {
            return start;
        }
        let bytes = bytes_of(b.size);
        let aligned = round_down(start, bytes);
        aligned + wide(k) * bytes
    }

    // WRAP: the offset from the wrap boundary goes round in the burst's container. The container's end is never worked out: at
    // the top of memory it is no address.
    fn wrap_address(self, k: u32) -> Address
        requires { (self.burst.kind ≡ Wrap) × (k < beats self.burst) }
        ensures { result ≡ beat_address self.burst k }
    {
        let b = self.burst;
        let start = b.start;
        let bytes = bytes_of(b.size);
        let container = bytes * wide(b.len + 1);
        let offset = low_part(start, container) + wide(k) * bytes;
        let boundary = round_down(start, container);
        let turned = low_part(offset, container);
        boundary + turned
    }
}

// The beat at an address: every number that a beat's answer has is made here.
fn beat_at(b: Burst, address: Address) -> Beat
    requires { Legal b }
    ensures { result ≡ beat_at b address }
{
    let bytes = bytes_of(b.size);
    let bus = wide(b.bus);
    let first = round_down(address, bytes);
    let highest = first + (bytes - 1);
    Beat {
        address,
        lower: lane(low_part(address, bus)),
        upper: lane(low_part(highest, bus)),
    }
}

// The signed distance between two addresses of one 4KB block.
fn distance(from: Address, to: Address) -> i32
    requires { from / block ≡ to / block }
    ensures { result ≡ sub_ℕ to from }
{
    if from <= to {
        (to - from) as i32
    } else {
        -((from - to) as i32)
    }
}

// Powers of two, and rounding to them by masks. Nothing in this file divides (T-04); docs/BEAT-ADDRESSES.md has
// the address functions beside A3.4.2.

// The bytes in a beat.
fn bytes_of(size: u32) -> Address
    requires { size ≤ axsize_most }
    ensures { result ≡ 2 ^ size }
{
    1 << size
}

// How far an address lies above a multiple of `bytes`: its bits in the mask.
fn low_part(address: Address, bytes: Address) -> Address
    requires { Power bytes }
    ensures { result ≡ address % bytes }
{
    let mask = bytes - 1;
    address & mask
}

// The address rounded down to a multiple of `bytes`: its bits outside the mask.
fn round_down(address: Address, bytes: Address) -> Address
    requires { Power bytes }
    ensures { result ≡ round_down address bytes }
{
    let mask = bytes - 1;
    address & !mask
}

// Numbers to and from the width of an address: the only casts between the two.

// A bus, a number of beats or a beat's index as an address's number.
fn wide(x: u32) -> Address
    ensures { result ≡ x }
{
    Address::from(x)
}

// A byte lane out of an address's number.
fn lane(x: Address) -> u32
    requires { x < bus_most }
    ensures { result ≡ x }
{
    // stays: `u32::try_from` is no plainer: its `unwrap` needs this same `requires`, and a test of it at run time.
    x as u32
}
