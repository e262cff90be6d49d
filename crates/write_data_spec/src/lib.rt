// The type that judging the beats of the write data channel answers with (paper 02, T-05). The call is in the crate write_data
// above; what it must answer is in specs/, and the laws about that are in proofs/. Nothing is computed here.
#![tactic(auto)]

// What write beats that are not refused are judged: clean with the number of high strobes, or broken with the first beat that
// breaks a rule and the lowest rule that it breaks, 1 to 5.
#[derive(Clone, Copy, Debug, PartialEq, Eq)]
pub enum WriteVerdict {
    Clean(usize),
    Broken(usize, u32),
}
