// The burst cases B1 to B6, and bursts at the top of memory. A burst is typed as start, AxLEN, AxSIZE, kind, bus.
use burst::burst_of;
use burst_spec::Burst;
use refusal::{Code, Refusal, code_of};
use std::io;

// The number of a refusal, as the papers list it.
pub fn refused(rt: &impl Print, r: Refusal) -> io::Result<()> {
    let Code(number, ..) = code_of(r);
    print!(rt; " refusal={number}")
}

// Whether the burst is accepted.
fn judge(rt: &impl Print, name: &str, b: Burst) -> io::Result<()> {
    print!(rt; "{name}")?;
    match burst::judge(b) {
        Ok(()) => print!(rt; " accepted")?,
        Err(r) => refused(rt, r)?,
    }
    println!(rt)
}

// Beat k: its address and lanes.
fn beat(rt: &impl Print, name: &str, b: Burst, k: u32) -> io::Result<()> {
    print!(rt; "{name} beat={k}")?;
    match burst::beat(b, k) {
        Ok(beat) => {
            print!(rt;
                " address=0x{:x} lanes={}-{}",
                beat.address, beat.lower, beat.upper
            )?
        }
        Err(r) => refused(rt, r)?,
    }
    println!(rt)
}

// The step from beat k to the next one.
fn step(rt: &impl Print, name: &str, b: Burst, k: u32) -> io::Result<()> {
    print!(rt; "{name} step={k}")?;
    match burst::step(b, k) {
        Ok(step) => print!(rt; " by={step}")?,
        Err(r) => refused(rt, r)?,
    }
    println!(rt)
}

// B1 and B2
pub fn beats(rt: &impl Print) -> io::Result<()> {
    let b1 = burst_of(0x1002, 2, 2, 1, 4);
    for k in 0..4 {
        beat(rt, "B1", b1, k)?;
    }
    let b2 = burst_of(0x1002, 15, 2, 0, 4);
    for k in [0, 1, 15] {
        beat(rt, "B2", b2, k)?;
    }
    step(rt, "B2", b2, 0)
}

// B3
pub fn wrap(rt: &impl Print) -> io::Result<()> {
    let b3 = burst_of(0x34, 3, 2, 2, 8);
    for k in 0..4 {
        beat(rt, "B3", b3, k)?;
    }
    for k in 0..4 {
        step(rt, "B3", b3, k)?;
    }
    Ok(())
}

// B4 and B5
pub fn boundary(rt: &impl Print) -> io::Result<()> {
    judge(rt, "B4", burst_of(0xFF2, 3, 2, 1, 4))?;
    judge(rt, "B4", burst_of(0xFF2, 4, 2, 1, 4))?;
    judge(rt, "B5", burst_of(0x1001, 255, 4, 1, 16))?;
    judge(rt, "B5", burst_of(0x1010, 255, 4, 1, 16))
}

// B6
pub fn counts(rt: &impl Print) -> io::Result<()> {
    for b in [
        burst_of(0x1000, 15, 2, 0, 4),
        burst_of(0x1000, 16, 2, 0, 4),
        burst_of(0x1000, 2, 2, 2, 4),
        burst_of(0x32, 3, 2, 2, 4),
    ] {
        judge(rt, "B6", b)?;
    }
    Ok(())
}

// An INCR and a WRAP that end with the last address below 2^32, and an INCR that would run past it.
pub fn top(rt: &impl Print) -> io::Result<()> {
    let incr = burst_of(0xFFFF_FF00, 15, 4, 1, 16);
    judge(rt, "TOP", incr)?;
    beat(rt, "TOP", incr, 15)?;
    judge(rt, "TOP", burst_of(0xFFFF_FF00, 16, 4, 1, 16))?;
    let wrap = burst_of(0xFFFF_FFF0, 15, 4, 2, 16);
    judge(rt, "TOP", wrap)?;
    beat(rt, "TOP", wrap, 0)?;
    beat(rt, "TOP", wrap, 1)?;
    step(rt, "TOP", wrap, 0)
}
