// The setup sheet of the report program (paper 01, 'The report program'; 02's T-06 for `user=`): its five lines, read from octets.
// The types are in report_setup_spec, and so is what a sheet says (specs/Grammar) and what the answer shows (specs/Answers). A width
// is any number from 0 to 99 here, and user bits are 0 to 9: which of them are allowed is decided in the crate report_call.
#![tactic(auto)]

ghost use Rattle.std.specs.Prelude.{◌≡◌, ◌==◌, MatchOption, Some, None};
ghost use Rattle.std.specs.List.{position};
ghost use Rattle.report_setup_spec.specs.Grammar.{line_feed, line, entry, digit, number, one_of, modes, tlasts};
ghost use Rattle.report_setup_spec.specs.Answers.{Parsed};

use report_setup_spec::{Mode, Setup, Tlast};

// What the octets of a sheet say.
#[tactic(auto, using(crate::proofs::Laws::ending_is), unfolding(report_setup_spec::specs::Grammar::sheet_of))]
pub fn parse(sheet: &[u8]) -> Option<Setup>
    ensures { Parsed sheet.now result }
{
    let (value, rest) = entry(sheet, b"width_in=")?;
    let width_in = number(value)?;
    let (value, rest) = entry(rest, b"width_out=")?;
    let width_out = number(value)?;
    let (value, rest) = entry(rest, b"mode=")?;
    let mode = mode_of(value)?;
    let (value, rest) = entry(rest, b"tlast=")?;
    let tlast = tlast_of(value)?;
    let (value, rest) = entry(rest, b"user=")?;
    let user = digit(value)?;
    rest.is_empty().then_some(Setup {
        width_in,
        width_out,
        mode,
        tlast,
        user,
    })
}

// The first line's text after this key, and the octets after its LF.
fn entry<'a>(text: &'a [u8], key: &[u8]) -> Option<(&'a [u8], &'a [u8])>
    ensures { MatchOption result (entry key.now text.now ≡ None) (λ l. entry key.now text.now ≡ Some (line l.0.now l.1.now)) }
{
    let end = line_end(text)?;
    let value = text[..end].strip_prefix(key)?;
    Some((value, &text[end + 1..]))
}

// The place of the first LF.
fn line_end(text: &[u8]) -> Option<usize>
    ensures { result ≡ position (λ octet. octet == line_feed) text.now }
{
    text.iter().position(|&octet| octet == b'\n')
}

// What a value of `mode=` means.
fn mode_of(value: &[u8]) -> Option<Mode>
    ensures { result ≡ one_of modes value.now }
{
    match value {
        b"pack" => Some(Mode::Pack),
        b"lanes" => Some(Mode::Lanes),
        _ => None,
    }
}

// What a value of `tlast=` means.
fn tlast_of(value: &[u8]) -> Option<Tlast>
    ensures { result ≡ one_of tlasts value.now }
{
    match value {
        b"wired" => Some(Tlast::Wired),
        b"none" => Some(Tlast::Absent),
        b"low" => Some(Tlast::Low),
        _ => None,
    }
}

// A number from 0 to 99 without leading zeros.
fn number(value: &[u8]) -> Option<usize>
    ensures { result ≡ number value.now }
{
    match value {
        [tens @ b'1'..=b'9', ones @ b'0'..=b'9'] => Some(
            10 * usize::from(tens - b'0') + usize::from(ones - b'0'),
        ),
        _ => digit(value),
    }
}

// A number of exactly one digit.
fn digit(value: &[u8]) -> Option<usize>
    ensures { result ≡ digit value.now }
{
    match value {
        [octet @ b'0'..=b'9'] => Some(usize::from(octet - b'0')),
        _ => None,
    }
}
