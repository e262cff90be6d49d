// A take whose shape and length have passed their tests. What a call asks of its input is asked here once; the functions behind the
// tests are handed a Take, and test nothing again. A record of it stays a plain slice beside its shape: of a slice behind a struct's
// reference the check knows only by a ghost field that its octets are below 256, which padding and user bits need.
ghost use Rattle.std.specs.Prelude.{◌≡◌, [], ◌∷◌, ◌++◌, ◌*◌, ◌≤◌, drop, IfOk};
ghost use Rattle.std.specs.Result.{result_err};
ghost use Rattle.std.specs.Slice.Iter.{chunks_exact_rest, chunks_exact_size};
ghost use Rattle.refusal.specs.Checks.{first};
ghost use Rattle.stream_spec.specs.Checks.{shape_checks, length_check, take_checks, transfer_checks};
ghost use Rattle.stream_spec.specs.Layout.{size, record_count, records};
ghost use Rattle.stream_spec.specs.Walk.{Passed};

use crate::checks::check_shape;
use crate::{check_length, check_shapes, record_fault, record_size};
use refusal::Refusal;
use std::slice::ChunksExact;
use stream_spec::Shape;

// Octets that are whole records of a shape, no more than a take may hold.
#[derive(Clone, Copy)]
pub struct Take<'a> {
    pub shape: Shape,
    pub octets: &'a [u8],
    ghost passed: { Passed shape octets.now },
}

impl<'a> Take<'a> {
    ghost use Rattle.stream_record.specs.Taken.{IsTakeOf};
    ghost use Rattle.stream_record.specs.Finding.{TakesRecords, FindsFirst};

    // The tests in front of a call that has no other width: the shape, then the length.
    pub fn new(shape: Shape, octets: &'a [u8]) -> Result<Take<'a>, Refusal>
        ensures refused { result_err result ≡ first (take_checks shape octets.now) }
        ensures taken { IfOk result (IsTakeOf shape octets.now) }
    {
        check_shape(shape)?;
        check_length(shape, octets)?;
        Ok(Take { shape, octets })
    }

    // The same of a call whose output has records of v lanes: that width may be tested first, since both give 1.
    pub fn for_width(shape: Shape, v: usize, octets: &'a [u8]) -> Result<Take<'a>, Refusal>
        ensures refused { result_err result ≡ first (shape_checks shape (v ∷ []) ++ length_check shape octets.now ∷ []) }
        ensures taken { IfOk result (IsTakeOf shape octets.now) }
    {
        check_shapes(shape, v)?;
        check_length(shape, octets)?;
        Ok(Take { shape, octets })
    }

    // The records, in order.
    pub fn records(&self) -> ChunksExact<'_, u8>
        ensures rest { chunks_exact_rest result ≡ self.now.octets.now }
        ensures size { chunks_exact_size result ≡ size self.now.shape }
    {
        self.octets.chunks_exact(record_size(self.shape))
    }

    // The take of the records from the record k on.
    pub fn behind(&self, k: usize) -> Take<'a>
        requires { k ≤ record_count self.now.shape self.now.octets.now }
        ensures { IsTakeOf self.now.shape (drop (k * size self.now.shape) self.now.octets.now) result }
    {
        Take {
            shape: self.shape,
            octets: &self.octets[k * record_size(self.shape)..],
        }
    }

    // The first refusal for the records by a fault of one record, told at its place.
    pub fn first_fault<F: Fn(usize, &[u8]) -> Result<(), Refusal>>(
        &self,
        fault: F,
    ) -> Result<(), Refusal>
        requires { TakesRecords (F.pre fault) self.now.shape self.now.octets.now }
        ensures { FindsFirst (F.post fault) self.now.shape self.now.octets.now result }
    {
        for (k, rec) in self.records().enumerate() {
            fault(k, rec)?;
        }
        Ok(())
    }

    // The first refusal for the records, where they are transfer records.
    pub fn find_fault(&self) -> Result<(), Refusal>
        ensures { result_err result ≡ first (transfer_checks self.now.shape 0 (records self.now.shape self.now.octets.now)) }
    {
        let s = self.shape;
        self.first_fault(|k, rec| record_fault(s, rec, k))
    }
}
