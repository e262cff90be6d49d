// The stream cases S1 to S7, the bounds of a take, each finding, fill-in, and user bits. The output is lent 24 octets EE, and all
// of them are printed, so that what is not written shows. A width w has its user bits m straight after it; in paper 01 there are none.
use refusal::{Code, Refusal, code_of};
use std::{fmt, io};
use stream_fill_in::{HIGH, LOW};
use stream_record::shape_of;
use stream_spec::{Shape, Verdict};

// Octets as they are printed.
#[derive(Clone, Copy)]
pub struct Octets<'a>(pub &'a [u8]);

impl<'a> fmt::Display for Octets<'a> {
    fn fmt<W: fmt::Write>(&self, f: &mut fmt::Formatter<W>) -> fmt::Result {
        for octet in self.0 {
            write!(f, " {octet:02x}")?;
        }
        Ok(())
    }
}

// What a call that writes records answers.
#[derive(Clone, Copy)]
struct Written(Result<usize, Refusal>);

impl fmt::Display for Written {
    fn fmt<W: fmt::Write>(&self, f: &mut fmt::Formatter<W>) -> fmt::Result {
        match self.0 {
            Ok(n) => write!(f, " records={n}"),
            Err(r) => write!(f, "{}", Refused(r)),
        }
    }
}

// All numbers of a refusal.
#[derive(Clone, Copy)]
struct Refused(Refusal);

impl fmt::Display for Refused {
    fn fmt<W: fmt::Write>(&self, f: &mut fmt::Formatter<W>) -> fmt::Result {
        let Code(number, place, rule) = code_of(self.0);
        write!(f, " refusal={number} place={place} rule={rule}")
    }
}

// A call that writes into the memory that it is lent: what it answers, and the memory afterwards.
fn call<F: FnOnce(&mut [u8]) -> Result<usize, Refusal>>(
    rt: &impl Print,
    name: &str,
    mut lent: [u8; 24],
    writes: F,
) -> io::Result<()>
    requires { F.IsAlwaysCallable writes }
{
    let answer = writes(&mut lent);
    println!(rt; "{name}{}{}", Written(answer), Octets(&lent))
}

// Repacks records of shape s to width v.
fn repack_to(rt: &impl Print, name: &str, s: Shape, v: usize, input: &[u8]) -> io::Result<()> {
    call(
        rt,
        name,
        [0xEE; 24],
        |out| stream_repack::repack(s, v, input, out),
    )
}

// Slices records of shape s to width v, lane by lane.
fn downsize_to(rt: &impl Print, name: &str, s: Shape, v: usize, input: &[u8]) -> io::Result<()> {
    call(
        rt,
        name,
        [0xEE; 24],
        |out| stream_downsize::downsize(s, v, input, out),
    )
}

// Fills in a take of 24 equal octets at a level.
fn fill_in(rt: &impl Print, s: Shape, octet: u8, level: bool) -> io::Result<()> {
    call(
        rt,
        "FILL",
        [octet; 24],
        |capture| stream_fill_in::fill_in(s, capture, level),
    )
}

// Judges a take.
fn judge(rt: &impl Print, name: &str, s: Shape, capture: &[u8]) -> io::Result<()> {
    match stream_judge::judge(s, capture) {
        Ok(Verdict::Clean(n)) => println!(rt; "{name} clean={n}"),
        Ok(Verdict::Broken(cycle, rule)) => println!(rt; "{name} cycle={cycle} rule={rule}"),
        Err(r) => println!(rt; "{name}{}", Refused(r)),
    }
}

// S1 to S6
pub fn packed(rt: &impl Print) -> io::Result<()> {
    repack_to(
        rt,
        "S1",
        shape_of(4, 0),
        4,
        b"\x01\x01\x02\x0D\x00\x09\x00\x11\x22\x33\x44",
    )?;
    downsize_to(
        rt,
        "S2",
        shape_of(4, 0),
        2,
        b"\x01\x01\x02\x0D\x00\x09\x00\x11\x22\x33\x44",
    )?;
    repack_to(
        rt,
        "S3",
        shape_of(1, 0),
        1,
        b"\x00\x00\x00\x01\x00\x01\x00\xAA\x01\x00\x00\x00\x00\x00\x00\x00",
    )?;
    repack_to(
        rt,
        "S4",
        shape_of(1, 0),
        1,
        b"\x01\x00\x00\x00\x00\x00\x00\x00\x01\x00\x00\x00\x00\x00\x00\x00",
    )?;
    repack_to(
        rt,
        "S5",
        shape_of(1, 0),
        1,
        b"\x00\x00\x00\x00\x00\x00\x00\x00",
    )?;
    repack_to(rt, "S6", shape_of(1, 0), 1, b"")
}

// S7: TIDs 1, 2, 1 are three records at every width.
pub fn three_pairs(rt: &impl Print) -> io::Result<()> {
    let input =
        b"\x00\x01\x00\x01\x00\x01\x00\x07\x00\x02\x00\x01\x00\x01\x00\x08\x00\x01\x00\x01\x00\x01\x00\x09";
    for v in 1..=16 {
        let mut out = [0xEEu8; 69];
        let answer = stream_repack::repack(shape_of(1, 0), v, input, &mut out);
        println!(rt; "S7 width={v}{}", Written(answer))?;
    }
    Ok(())
}

// R1 to R4, R1 in reset and in the first sample out of it.
pub fn findings(rt: &impl Print) -> io::Result<()> {
    judge(
        rt,
        "R1",
        shape_of(1, 0),
        b"\x08\x00\x00\x00\x00\x00\x00\x00\x02\x00\x00\x00\x00\x00\x00\x00",
    )?;
    judge(
        rt,
        "R1",
        shape_of(1, 0),
        b"\x00\x00\x00\x00\x00\x00\x00\x00\x0E\x00\x00\x01\x00\x01\x00\x07",
    )?;
    judge(
        rt,
        "R2",
        shape_of(1, 0),
        b"\x0A\x00\x00\x01\x00\x01\x00\x07\x08\x00\x00\x01\x00\x01\x00\x07",
    )?;
    judge(
        rt,
        "R3",
        shape_of(1, 0),
        b"\x0A\x05\x00\x01\x00\x01\x00\x07\x0E\x06\x00\x01\x00\x01\x00\x07",
    )?;
    judge(
        rt,
        "R4",
        shape_of(1, 0),
        b"\x08\x00\x00\x00\x00\x00\x00\x00\x0A\x00\x00\x00\x00\x01\x00\x00",
    )
}

// A reset that ends a wait, and a transfer after one idle sample.
pub fn resets(rt: &impl Print) -> io::Result<()> {
    judge(
        rt,
        "RESET",
        shape_of(1, 0),
        b"\x0A\x05\x00\x01\x00\x01\x00\x07\x00\x00\x00\x00\x00\x00\x00\x00\x08\x00\x00\x00\x00\x00\x00\x00",
    )?;
    judge(
        rt,
        "RESET",
        shape_of(1, 0),
        b"\x00\x00\x00\x00\x00\x00\x00\x00\x08\x00\x00\x00\x00\x00\x00\x00\x0E\x00\x00\x01\x00\x01\x00\x07",
    )
}

// T-03: fill-in low and high, where TLAST is the other level and where it is this one; refused, at either level.
pub fn levels(rt: &impl Print) -> io::Result<()> {
    fill_in(rt, shape_of(1, 0), 0xFF, LOW)?;
    fill_in(rt, shape_of(1, 0), 0xFF, HIGH)?;
    fill_in(rt, shape_of(1, 0), 0xEE, LOW)?;
    fill_in(rt, shape_of(1, 0), 0xEE, HIGH)?;
    fill_in(rt, shape_of(2, 0), 0xFF, LOW)?;
    fill_in(rt, shape_of(17, 0), 0xEE, HIGH)
}

// A take of 65,536 octets at widths 1 and 9, and one record more.
pub fn bounds(rt: &impl Print) -> io::Result<()> {
    let long = [0u8; 65552];
    judge(rt, "TAKE", shape_of(1, 0), &long[..65536])?;
    judge(rt, "TAKE", shape_of(9, 0), &long[..65536])?;
    judge(rt, "TAKE", shape_of(1, 0), &long[..65544])?;
    judge(rt, "TAKE", shape_of(9, 0), &long[..65552])?;
    judge(rt, "TAKE", shape_of(1, 0), &long[..65535])
}

// Widths 0, 16 and 17; each field's bound.
pub fn fields(rt: &impl Print) -> io::Result<()> {
    judge(rt, "WIDTH", shape_of(0, 0), b"")?;
    judge(rt, "WIDTH", shape_of(16, 0), b"")?;
    judge(rt, "WIDTH", shape_of(17, 0), b"")?;
    judge(
        rt,
        "FIELD",
        shape_of(1, 0),
        b"\x0F\xFF\x0F\x01\x00\x01\x00\xFF\x00\x00\x10\x00\x00\x00\x00\x00",
    )?;
    repack_to(
        rt,
        "FIELD",
        shape_of(1, 0),
        1,
        b"\x02\x00\x00\x00\x00\x01\x00\x00",
    )?;
    downsize_to(rt, "RATIO", shape_of(4, 0), 3, b"")?;
    repack_to(
        rt,
        "RESERVED",
        shape_of(1, 0),
        1,
        b"\x00\x00\x00\x00\x00\x01\x00\x00",
    )?;
    repack_to(
        rt,
        "ROOM",
        shape_of(1, 0),
        16,
        b"\x00\x00\x00\x01\x00\x01\x00\xAA\x00\x01\x00\x01\x00\x01\x00\xAA",
    )
}

// T-06: repacking and downsizing keep user bits with their byte, and those of null lanes go; fill-in and R3. At m = 3 the bits of
// lane 2 lie in two octets.
pub fn user_bits(rt: &impl Print) -> io::Result<()> {
    repack_to(
        rt,
        "USER",
        shape_of(3, 3),
        2,
        b"\x00\x01\x02\x05\x00\x01\x00\x11\x22\x33\xB9\x01\x01\x01\x02\x01\x00\x01\x00\x44\x55\x66\x05\x00",
    )?;
    downsize_to(
        rt,
        "USER",
        shape_of(4, 2),
        2,
        b"\x01\x01\x02\x0D\x00\x09\x00\x11\x22\x33\x44\xED",
    )?;
    fill_in(rt, shape_of(4, 2), 0xFF, LOW)?;
    judge(
        rt,
        "USER",
        shape_of(1, 4),
        b"\x0A\x00\x00\x01\x00\x01\x00\x07\x08\x0E\x00\x00\x01\x00\x01\x00\x07\x00",
    )
}

// T-06: m of 4 and 5; 1 before 16, and 16 before 6.
pub fn user_bounds(rt: &impl Print) -> io::Result<()> {
    judge(rt, "USER", shape_of(16, 4), b"")?;
    judge(rt, "USER", shape_of(16, 5), b"")?;
    judge(rt, "USER", shape_of(17, 5), b"")?;
    repack_to(rt, "USER", shape_of(1, 5), 17, b"")?;
    repack_to(rt, "USER", shape_of(1, 5), 16, b"\x00")?;
    downsize_to(rt, "USER", shape_of(4, 5), 3, b"")?;
    fill_in(rt, shape_of(4, 5), 0xEE, HIGH)
}

// T-06: the bits of a null lane are free, the padding is not; a take of 65,536 octets at width 8 with one user bit, and one record
// more.
pub fn user_takes(rt: &impl Print) -> io::Result<()> {
    let long = [0u8; 65552];
    judge(
        rt,
        "USER",
        shape_of(1, 1),
        b"\x08\x00\x00\x00\x00\x00\x00\x00\x01",
    )?;
    judge(
        rt,
        "USER",
        shape_of(1, 1),
        b"\x08\x00\x00\x00\x00\x00\x00\x00\x02",
    )?;
    judge(rt, "TAKE", shape_of(8, 1), &long[..65536])?;
    judge(rt, "TAKE", shape_of(8, 1), &long[..65552])
}
