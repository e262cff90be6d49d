// Tells a field fault by two words of a header, octets 0 to 3 and octets 3 to 6, and the bits of them that must be zero.
ghost use Rattle.std.specs.Prelude.{◌≡◌, ◌≤◌, length};
ghost use Rattle.stream_spec.specs.Layout.{head_octets, width_most};
ghost use Rattle.stream_head.specs.Zeros.{zeros_of, TellsFault};

use crate::{BOTH_MASKS, MASK, Zeros};
use stream_record::layout::{FLAGS, TKEEP};
use stream_spec::Shape;

// Octets 0 to 3 as one number: bits 4 to 7 of TDEST in octet 2 are bits 20 to 23, and with bit 8, from which the flags in use
// are taken away, all bits of octet 0 above those flags.
const LOW_ZEROS: u32 = 0xF0_0000 + 0x100;

// The bits that must be zero where `used` flags of octet 0 are in use.
pub fn must_be_zero(used: u32, s: Shape) -> Zeros
    requires { (s.width ≤ width_most) × (used ≤ 8) }
    ensures { result ≡ zeros_of used s }
{
    Zeros {
        low: LOW_ZEROS - (1u32 << used),
        high: BOTH_MASKS * (MASK - (1u32 << s.width)),
    }
}

// Whether the record at the front of `rec` has a bit set that must be zero.
pub fn breaks(rec: &[u8], z: Zeros) -> bool
    requires { head_octets ≤ length rec.now }
    ensures { TellsFault z rec.now result }
{
    // `|` and not `||`: one jump for both words, where two made judging takes of one lane a third to a half slower
    (words::load::<u32>(rec, FLAGS) & z.low != 0) | (words::load::<u32>(rec, TKEEP) & z.high != 0)
}
