// Long bursts cut for AXI3 boards (T-02): the number of bursts, then of each its start address, a plus and its AxLEN (beats less
// one); or the refusal.
use crate::bursts::refused;
use burst::burst_of;
use burst_spec::Burst;
use std::io;

// The burst cut into a row of so many descriptions.
fn cut(rt: &impl Print, b: Burst, room: usize) -> io::Result<()> {
    print!(rt; "CUT")?;
    let row = axi3::cut_row(b, room);
    match row.answer {
        Ok(n) => {
            print!(rt; " bursts={n}")?;
            for piece in row.bursts.iter().take(n) {
                print!(rt; " 0x{:x}+{}", piece.start, piece.len)?;
            }
        }
        Err(r) => refused(rt, r)?,
    }
    println!(rt)
}

// By the number of beats, from unaligned starts; rows of just so many and one less.
pub fn incr(rt: &impl Print) -> io::Result<()> {
    for (len, room) in [(0, 1), (14, 1), (15, 1), (16, 2), (16, 1), (31, 2)] {
        cut(rt, burst_of(0x1002, len, 2, 1, 4), room)?;
    }
    for (len, room) in [(254, 16), (255, 16), (255, 15)] {
        cut(rt, burst_of(0x1001, len, 4, 1, 16), room)?;
    }
    cut(rt, burst_of(0xFFFF_F001, 31, 7, 1, 128), 2)
}

// FIXED and WRAP as themselves, an empty row, and a refused burst.
pub fn others(rt: &impl Print) -> io::Result<()> {
    cut(rt, burst_of(0x1002, 15, 2, 0, 4), 1)?;
    cut(rt, burst_of(0x34, 15, 2, 2, 8), 1)?;
    cut(rt, burst_of(0x34, 15, 2, 2, 8), 0)?;
    cut(rt, burst_of(0x1010, 255, 4, 1, 16), 0)
}
