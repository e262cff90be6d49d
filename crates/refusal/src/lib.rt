// The refusals of paper 01's table 'Refusal numbers' and of paper 02, and the numbers that each one shows to a user.
// Every call of the library that can refuse answers with this enum inside its own answer. Which call gives which
// refusal, and in which order, is not here: it stands in the definitions of the calls (the crates whose names end in _spec).
#![tactic(auto)]

ghost use Rattle.std.specs.Prelude.{◌≡◌};
ghost use Rattle.refusal.specs.Code.{code_of};

// One constructor for each line of the table. The place is a part of the constructors that have one.
#[derive(Clone, Copy, Debug, PartialEq, Eq)]
pub enum Refusal {
    // 1 WIDTH: a width is 0 or above 16
    Width,
    // 2 LENGTH: the input is over 65,536 octets or no whole number of records
    Length,
    // 3 FIELD: a bit that must be zero is set, or TDEST is above 15; in this record
    Field(usize),
    // 4 RESERVED: this transfer record has a reserved lane
    Reserved(usize),
    // 5 ROOM: the lent output is shorter than the answer
    Room,
    // 6 RATIO: downsizing to a width that does not divide the input's
    Ratio,
    // 7 BUS: the bus is none of 1, 2, 4, 8, 16, 32, 64, 128
    Bus,
    // 8 SIZE: AxSIZE is above 7, or a beat is wider than the bus
    Size,
    // 9 TYPE: the burst's kind is 3 or more
    Kind,
    // 10 COUNT: so many beats are not allowed for the kind, or AxLEN is above 255
    Count,
    // 11 ALIGN: a WRAP start that is no multiple of the beat's bytes
    Align,
    // 12 FENCE: the 4KB rule
    Boundary,
    // 13 INDEX: no such record or beat, or no beat after it
    Index,
    // 14 UNCLEAN: harvest of a take in which this cycle breaks this rule, 1 to 4
    Unclean(usize, u32),
    // 15 SHEET: the setup sheet is not as papers 01 and 02 have it
    Setup,
    // 16 USERBITS: more than 4 user bits to a byte
    UserBits,
    // 17 TAGS: merging, this transfer record has a TID of 128 or more
    Tags(usize),
}

// What a refusal shows, in this order: its number in the table, its place (a record or a cycle), the handshake rule.
// What it does not have is 0.
#[derive(Clone, Copy, Debug, PartialEq, Eq)]
pub struct Code(pub u32, pub usize, pub u32);

// The numbers of a refusal.
pub fn code_of(r: Refusal) -> Code
    ensures { (result.0 ≡ (code_of r).0) × (result.1 ≡ (code_of r).1) × (result.2 ≡ (code_of r).2) }
{
    match r {
        Refusal::Width => Code(1, 0, 0),
        Refusal::Length => Code(2, 0, 0),
        Refusal::Field(record) => Code(3, record, 0),
        Refusal::Reserved(record) => Code(4, record, 0),
        Refusal::Room => Code(5, 0, 0),
        Refusal::Ratio => Code(6, 0, 0),
        Refusal::Bus => Code(7, 0, 0),
        Refusal::Size => Code(8, 0, 0),
        Refusal::Kind => Code(9, 0, 0),
        Refusal::Count => Code(10, 0, 0),
        Refusal::Align => Code(11, 0, 0),
        Refusal::Boundary => Code(12, 0, 0),
        Refusal::Index => Code(13, 0, 0),
        Refusal::Unclean(cycle, rule) => Code(14, cycle, rule),
        Refusal::Setup => Code(15, 0, 0),
        Refusal::UserBits => Code(16, 0, 0),
        Refusal::Tags(record) => Code(17, record, 0),
    }
}
