// Tells the usual record by its header alone, read as two overlapping words: no fault, no position lane, and the pair of
// the record before it. A record that is not told so here may still be a sound one: who reads it judges it in full.
ghost use Rattle.std.specs.Prelude.{◌≡◌, true, ◌<◌};
ghost use Rattle.stream_head.specs.Usual.{usual_test, UsualWords};

use crate::{BOTH_MASKS, KEEP_LOW, MASK, OCTET, PAIR};

// Octets 0 to 3 of a header are `lo`, octets 3 to 6 are `hi`; `full` is the mask of all lanes. Without TLAST the low word
// is the pair and the low octet of TKEEP, and the high word's upper half, TSTRB, is TKEEP again.
pub fn is_usual(lo: u32, hi: u32, pair: u32, full: u32) -> bool
    requires { pair < 0x1000 }
    ensures { (result ≡ usual_test lo hi pair full) × (result ≡ true → UsualWords lo hi pair full) }
{
    lo - lo % 2 == PAIR * pair + KEEP_LOW * (hi % OCTET)
        && hi == BOTH_MASKS * (hi % MASK)
        && hi % MASK <= full
}
