// The types that cutting a burst for an AXI3 board answers with (paper 02, T-02). The calls are in the crate axi3 above; what
// each must answer is in specs/, and the laws about that are in proofs/. Nothing is computed here.
#![tactic(auto)]

use burst_spec::Burst;
use refusal::Refusal;

// As many descriptions as a cut can need: 256 beats are 16 bursts of 16.
pub const ROW_LENGTH: usize = 16;

// A cut with a row of its own: how many bursts it was cut into, which stand at the front of the row, or the refusal; and the row, in which
// descriptions that are not used are blank.
// stays: all 16 descriptions are answered, and no shorter list of them: `CutAlone` says by `row_after` that those not used are blank.
#[derive(Clone, Copy)]
pub struct CutRow {
    pub answer: Result<usize, Refusal>,
    pub bursts: [Burst; ROW_LENGTH],
}
