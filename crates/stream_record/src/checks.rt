// The tests in front of a stream call, in the papers' order: the widths, the user bits, then the length. Each function answers
// the first refusal of a list of stream_spec's checks. A test that a shape gets later comes straight after all widths, in check_shape.
ghost use Rattle.std.specs.Prelude.{◌≡◌, [], ◌∷◌};
ghost use Rattle.std.specs.Result.{result_err};
ghost use Rattle.refusal.specs.Checks.{first};
ghost use Rattle.stream_spec.specs.Checks.{shape_checks, length_check};
ghost use Rattle.stream_spec.specs.Walk.{Narrow};

use crate::{bad_length, bad_user, bad_width};
use refusal::Refusal;
use stream_spec::Shape;

// The shape of the input, of a call that has no other width.
pub fn check_shape(s: Shape) -> Result<(), Refusal>
    ensures { result_err result ≡ first (shape_checks s []) }
{
    if bad_width(s.width) {
        return Err(Refusal::Width);
    }
    if bad_user(s.user) {
        return Err(Refusal::UserBits);
    }
    Ok(())
}

// The shape of the input and the width of the output.
pub fn check_shapes(s: Shape, v: usize) -> Result<(), Refusal>
    ensures { result_err result ≡ first (shape_checks s (v ∷ [])) }
{
    if bad_width(v) {
        return Err(Refusal::Width);
    }
    check_shape(s)
}

// The length of the input. Its shape has passed its test.
pub fn check_length(s: Shape, input: &[u8]) -> Result<(), Refusal>
    requires { Narrow s }
    ensures { result_err result ≡ first (length_check s input.now ∷ []) }
{
    if bad_length(s, input) {
        return Err(Refusal::Length);
    }
    Ok(())
}
