// The types that the burst calls take and answer with. The calls are in the crate burst above; what each must answer is
// in specs/, and the laws about that are in proofs/. All that is computed here is a kind of its number, and back.
#![tactic(auto)]

ghost use Rattle.std.specs.Prelude.{◌≡◌};

// How wide an address is. The code says it here and nowhere else, the proofs in `address_bits` of burst (T-10: 64 bits).
pub type Address = u32;

// AxBURST, paper 01's kind: FIXED 0, INCR 1, WRAP 2. Reserved is Arm's word for the encoding b11, and stands for every
// number from 3 on.
#[derive(Clone, Copy, Debug, PartialEq, Eq)]
pub enum Kind {
    Fixed,
    Incr,
    Wrap,
    Reserved,
}

// Every number from 3 on is the reserved kind, which is refused after BUS and SIZE.
impl From<u32> for Kind {
    ghost use Rattle.burst_spec.specs.Answers.{kind_of};

    ghost from_gives = { λ number kind. kind ≡ kind_of number };

    fn from(number: u32) -> Kind {
        match number {
            0 => Kind::Fixed,
            1 => Kind::Incr,
            2 => Kind::Wrap,
            _ => Kind::Reserved,
        }
    }
}

// AxBURST of a kind; no accepted burst has the reserved one.
impl From<Kind> for u64 {
    ghost use Rattle.burst_spec.specs.Answers.{kind_number};

    ghost from_gives = { λ kind number. number ≡ kind_number kind };

    fn from(kind: Kind) -> u64 {
        match kind {
            Kind::Fixed => 0,
            Kind::Incr => 1,
            Kind::Wrap => 2,
            Kind::Reserved => 3,
        }
    }
}

// A burst as its control signals say it: AxADDR, AxLEN (beats less one), AxSIZE (a beat has 2 to this power bytes),
// AxBURST, and the data bus in bytes. Any numbers may stand here: a burst that breaks a rule is refused.
#[derive(Clone, Copy, Debug, PartialEq, Eq)]
pub struct Burst {
    pub start: Address,
    pub len: u32,
    pub size: u32,
    pub kind: Kind,
    pub bus: u32,
}

// One beat: its address, and the byte lanes it uses, from lower to upper.
#[derive(Clone, Copy, Debug, PartialEq, Eq)]
pub struct Beat {
    pub address: Address,
    pub lower: u32,
    pub upper: u32,
}
