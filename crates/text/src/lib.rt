// Text in a lent slice, as ASCII octets: decimal numbers and LF-ended key=value lines, each written at a place, with the
// place after it as the answer. What they look like is in specs/Text. Which lines a text has is not here: that is the
// caller's (report_call). Helpers for other crates: each asks that there is room, and the caller shows that there is.
#![tactic(auto)]

ghost use Rattle.std.specs.Prelude.{◌+◌, ◌≤◌, length};
ghost use Rattle.text.specs.Text.{decimal, line, Put};

// Writes these octets from `at` on, one by one: copied as a slice they would need memmove, which C callers may not have.
pub fn put_octets(out: &mut [u8], at: usize, octets: &[u8]) -> usize
    requires { at + length octets.now ≤ length out.old }
    ensures { Put at octets.now out.old out.new result }
{
    for i in 0..octets.len() {
        out[at + i] = octets[i];
    }
    at + octets.len()
}

// Writes n in decimal from `at` on.
pub fn put_decimal(out: &mut [u8], at: usize, n: usize) -> usize
    requires { at + length (decimal n) ≤ length out.old }
    ensures { Put at (decimal n) out.old out.new result }
{
    let mut buffer = itoa::Buffer::new();
    put_octets(out, at, buffer.format(n).as_bytes())
}

// Writes the line `key` n LF from `at` on; the key has its `=`.
pub fn put_line(out: &mut [u8], at: usize, key: &[u8], n: usize) -> usize
    requires { at + length (line key.now n) ≤ length out.old }
    ensures { Put at (line key.now n) out.old out.new result }
{
    let number = put_octets(out, at, key);
    let end = put_decimal(out, number, n);
    put_octets(out, end, b"\n")
}
