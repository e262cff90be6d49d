// The type that merging two takes onto one port answers with (paper 02, T-08). The call is in the crate stream_merge above; what
// it must answer is in specs/, and the laws about that are in proofs/. Nothing is computed here.
#![tactic(auto)]

use refusal::Refusal;

// Why merging is refused: the port that the refusal names, 0 or 1, and the refusal.
#[derive(Clone, Copy, Debug, PartialEq, Eq)]
pub struct PortRefusal {
    pub port: u32,
    pub refusal: Refusal,
}
