// The types that reading a setup sheet answers with (paper 01, 'The report program'; 02's T-06 for `user=`). The call that reads one is in the crate
// report_setup above; what a sheet says is in specs/Grammar, the number and values that an answer stands for in specs/Answers,
// and the laws about both in proofs/. No octet is read here.

// `mode=pack`: repacking. `mode=lanes`: lane-keeping downsizing.
#![tactic(auto)]

#[derive(Clone, Copy, Debug, PartialEq, Eq)]
pub enum Mode {
    Pack,
    Lanes,
}

// `tlast=wired`: TLAST is as sampled. The port has no such wire with the two others, and TLAST is filled in first: high with
// `tlast=none`, low with `tlast=low`.
#[derive(Clone, Copy, Debug, PartialEq, Eq)]
pub enum Tlast {
    Wired,
    Absent,
    Low,
}

// What a sheet says. The widths are as written, 0 to 99, and so are the user bits to a byte, 0 to 9: which of them are allowed is
// decided in the crate report_call.
#[derive(Clone, Copy, Debug, PartialEq, Eq)]
pub struct Setup {
    pub width_in: usize,
    pub width_out: usize,
    pub mode: Mode,
    pub tlast: Tlast,
    pub user: usize,
}
