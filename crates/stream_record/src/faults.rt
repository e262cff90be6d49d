// The faults of transfer records: 3 FIELD before 4 RESERVED in each. A fault that records get later is one more check of
// `transfer_faults`, and one more fault here.
ghost use Rattle.std.specs.Prelude.{◌≡◌, ◌≤◌, length};
ghost use Rattle.std.specs.Result.{result_err};
ghost use Rattle.refusal.specs.Checks.{first};
ghost use Rattle.stream_spec.specs.Layout.{width_most, size};
ghost use Rattle.stream_spec.specs.Checks.{transfer_faults};
ghost use Rattle.stream_spec.specs.Walk.{Narrow};
ghost use Rattle.stream_record.specs.Header.{fault_of, record_fault};

use crate::layout::TRANSFER_FLAGS;
use crate::{Header, bad_padding, field_fault, read_header, reserved};
use refusal::Refusal;
use stream_spec::Shape;

// What is wrong with a transfer record.
#[derive(Clone, Copy, Debug, PartialEq, Eq)]
pub enum Fault {
    Field,
    Reserved,
}

impl Fault {
    ghost use Rattle.stream_record.specs.Header.{refusal_at};

    // The refusal for this fault of record k.
    pub fn at(self, k: usize) -> Refusal
        ensures { result ≡ refusal_at k self }
    {
        match self {
            Fault::Field => Refusal::Field(k),
            Fault::Reserved => Refusal::Reserved(k),
        }
    }
}

// The fault of a transfer record with this header, as far as its header tells.
pub fn fault_of(h: Header, s: Shape) -> Result<(), Fault>
    requires { s.width ≤ width_most }
    ensures { result ≡ fault_of s h }
{
    if field_fault(h, TRANSFER_FLAGS, s) {
        return Err(Fault::Field);
    }
    if reserved(h) {
        return Err(Fault::Reserved);
    }
    Ok(())
}

// The fault of a transfer record: its padding, and its header.
pub fn fault_in(s: Shape, rec: &[u8]) -> Result<(), Fault>
    requires { Narrow s × (length rec.now ≡ size s) }
    ensures { result ≡ record_fault s rec.now }
{
    if bad_padding(s, rec) {
        return Err(Fault::Field);
    }
    fault_of(read_header(rec), s)
}

// The refusal for the transfer record k.
pub fn record_fault(s: Shape, rec: &[u8], k: usize) -> Result<(), Refusal>
    requires { Narrow s × (length rec.now ≡ size s) }
    ensures { result_err result ≡ first (transfer_faults s k rec.now) }
{
    fault_in(s, rec).map_err(|fault| fault.at(k))
}
