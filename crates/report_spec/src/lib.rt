// The types that the report answers with. The call is in the crate report_call above; what it must answer is `report_of` in
// specs/Report, and the laws about that are in proofs/. Nothing is computed here.
#![tactic(auto)]

use refusal::Refusal;

// What a clean take amounts to: its transfers, how many of them have TLAST, and the records written.
#[derive(Clone, Copy, Debug, PartialEq, Eq)]
pub struct Tally {
    pub transfers: usize,
    pub packets: usize,
    pub records: usize,
}

// What a take that is not refused comes to.
#[derive(Clone, Copy, Debug, PartialEq, Eq)]
pub enum Verdict {
    Clean(Tally),
    // the earliest cycle that breaks a rule, and the lowest rule it breaks, 1 to 4
    Broken(usize, u32),
}

// The verdict, or why there is none; how many octets of text stand at the front of the lent `text`; how many octets of result stand at the
// front of the lent `out`, 0 unless the verdict is clean.
#[derive(Clone, Copy, Debug, PartialEq, Eq)]
pub struct Summary {
    pub verdict: Result<Verdict, Refusal>,
    pub text: usize,
    pub octets: usize,
}
