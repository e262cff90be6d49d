// Two takes of width 1 merged onto one port (T-08): the number of records; or the refusal, the port that it names and its place. The output
// is lent 42 octets EE, and all of them are printed, so that what is not written shows.
use crate::streams::Octets;
use refusal::{Code, code_of};
use std::io;
use stream_record::shape_of;

// Port 0's list and port 1's, merged.
fn merge(rt: &impl Print, first: &[u8], second: &[u8]) -> io::Result<()> {
    let mut out = [0xEEu8; 42];
    print!(rt; "MERGE")?;
    match stream_merge::merge(shape_of(1, 0), first, second, &mut out) {
        Ok(n) => print!(rt; " records={n}")?,
        Err(named) => {
            let Code(number, place, _) = code_of(named.refusal);
            print!(rt; " refusal={number} port={} at={place}", named.port)?
        }
    }
    println!(rt; "{}", Octets(&out))
}

// Turns of two records, one, one and one; an all-null record with idle data and TID 127; one list empty.
pub fn turns(rt: &impl Print) -> io::Result<()> {
    merge(
        rt,
        b"\x00\x01\x00\x01\x00\x01\x00\x0A\x01\x01\x00\x01\x00\x01\x00\x0B\x00\x01\x00\x01\x00\x01\x00\x0C",
        b"\x01\x02\x00\x01\x00\x01\x00\x14\x01\x02\x00\x01\x00\x01\x00\x15",
    )?;
    merge(
        rt,
        b"\x00\x7F\x0F\x00\x00\x00\x00\x5A",
        b"\x00\x7F\x0F\x00\x00\x00\x00\x5B",
    )?;
    merge(rt, b"", b"\x01\x00\x00\x00\x00\x00\x00\x00")
}

// Half a record on either port; 3 before 17 in a record; 17 of an all-null record on either port; no room for the sixth record.
pub fn refusals(rt: &impl Print) -> io::Result<()> {
    merge(rt, b"\x00", b"\x00")?;
    merge(rt, b"\x02\x80\x00\x00\x00\x00\x00\x00", b"\x00")?;
    merge(
        rt,
        b"\x02\x80\x00\x00\x00\x00\x00\x00",
        b"\x02\x80\x00\x00\x00\x00\x00\x00",
    )?;
    merge(
        rt,
        b"\x00\x7F\x00\x00\x00\x00\x00\x00\x00\x80\x00\x00\x00\x00\x00\x00",
        b"\x02\x80\x00\x00\x00\x00\x00\x00",
    )?;
    merge(
        rt,
        b"\x00\x7F\x00\x00\x00\x00\x00\x00",
        b"\x00\x80\x00\x00\x00\x00\x00\x00",
    )?;
    let three =
        b"\x00\x01\x00\x01\x00\x01\x00\x0A\x01\x01\x00\x01\x00\x01\x00\x0B\x00\x01\x00\x01\x00\x01\x00\x0C";
    merge(rt, three, three)
}
