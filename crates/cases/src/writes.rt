// Beats of the write data channel, judged against their burst (T-05): the number of high strobes; or the rule that is broken and its
// beat, of W5 the count given; or the refusal and its place. A beat is typed as octet 0, with WLAST in bit 0, and its strobes.
use burst::burst_of;
use burst_spec::Burst;
use refusal::{Code, code_of};
use std::io;
use write_data_spec::WriteVerdict;

// The take judged against the burst.
fn judge(rt: &impl Print, b: Burst, beats: &[u8]) -> io::Result<()> {
    match write_data::judge_writes(b, beats) {
        Ok(WriteVerdict::Clean(n)) => println!(rt; "WRITE clean strobes={n}"),
        Ok(WriteVerdict::Broken(place, rule)) => println!(rt;
            "WRITE broken rule={rule} at={place}"
        ),
        Err(r) => {
            let Code(number, place, _) = code_of(r);
            println!(rt; "WRITE refusal={number} at={place}")
        }
    }
}

// The lanes of B1 to B3 beat by beat, no strobe at all, and a stray one beside the lanes of each.
pub fn lanes(rt: &impl Print) -> io::Result<()> {
    let b1 = burst_of(0x1002, 2, 2, 1, 4);
    judge(rt, b1, b"\x00\x0C\x00\x0F\x01\x0F")?;
    judge(rt, b1, b"\x00\x00\x00\x00\x01\x00")?;
    judge(rt, b1, b"\x00\x0E\x00\x0F\x01\x0F")?;
    let b2 = burst_of(0x1002, 1, 2, 0, 4);
    judge(rt, b2, b"\x00\x0C\x01\x0C")?;
    judge(rt, b2, b"\x00\x0C\x01\x0E")?;
    let b3 = burst_of(0x34, 3, 2, 2, 8);
    judge(rt, b3, b"\x00\xF0\x00\x0F\x00\xF0\x01\x0F")?;
    judge(rt, b3, b"\x00\xF0\x00\x1F\x00\xF0\x01\x0F")?;
    judge(rt, b3, b"\x00\xF0\x00\x0F\x00\xF8\x01\x0F")?;
    judge(rt, b3, b"\x00\xF0\x00\x0F\x00\xF0\x01\xF0")
}

// W2 to W5 of a burst of two beats, an empty take, and three beats with WLAST on the third.
pub fn counts(rt: &impl Print) -> io::Result<()> {
    let two = burst_of(0x1000, 1, 2, 1, 4);
    judge(rt, two, b"\x01\x0F\x01\x0F")?;
    judge(rt, two, b"\x00\x0F\x00\x0F")?;
    judge(rt, two, b"\x00\x0F\x01\x0F\x01\x0F")?;
    judge(rt, two, b"\x00\x0F")?;
    judge(rt, two, b"")?;
    judge(rt, two, b"\x00\x0F\x00\x0F\x01\x0F")
}

// A bit that must be zero, in a beat past the last too; a strobe bit at the bus; half a record; a burst that is refused.
pub fn refusals(rt: &impl Print) -> io::Result<()> {
    let two = burst_of(0x1000, 1, 2, 1, 4);
    judge(rt, two, b"\x00\x0F\x03\x0F")?;
    judge(rt, two, b"\x00\x0F\x01\x0F\x02\x00")?;
    judge(rt, two, b"\x00\x1F\x01\x0F")?;
    judge(rt, two, b"\x00\x0F\x01")?;
    judge(rt, burst_of(0xFFC, 1, 2, 1, 4), b"\x02")
}
