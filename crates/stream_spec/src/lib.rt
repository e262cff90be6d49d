// The types that the stream calls take and answer with. The calls themselves are in the crates above; what each must
// answer is in specs/, and the laws about that are in proofs/. No octet is read or written here.
#![tactic(auto)]

// What a record looks like: how many byte lanes it has, and how many user bits go with each byte. Every stream call takes one.
#[derive(Clone, Copy, Debug, PartialEq, Eq)]
pub struct Shape {
    pub width: usize,
    pub user: usize,
}

// What a take of cycle records that is not refused is judged.
#[derive(Clone, Copy, Debug, PartialEq, Eq)]
pub enum Verdict {
    // no rule is broken; the count of cycles with a transfer
    Clean(usize),
    // the earliest cycle that breaks a rule, and the lowest rule it breaks, 1 to 4
    Broken(usize, u32),
}
