// Prints the refusal table of the papers, a line for each refusal: its name there, then the number, place and rule that the
// library shows for it. The refusals that have a place are shown at record 7, and the unclean take at cycle 7, rule 3.
#![tactic(auto)]

use refusal::{Code, Refusal, code_of};
use std::io;

const ROWS: [(&str, Refusal); 17] = [
    ("WIDTH", Refusal::Width),
    ("LENGTH", Refusal::Length),
    ("FIELD", Refusal::Field(7)),
    ("RESERVED", Refusal::Reserved(7)),
    ("ROOM", Refusal::Room),
    ("RATIO", Refusal::Ratio),
    ("BUS", Refusal::Bus),
    ("SIZE", Refusal::Size),
    ("TYPE", Refusal::Kind),
    ("COUNT", Refusal::Count),
    ("ALIGN", Refusal::Align),
    ("FENCE", Refusal::Boundary),
    ("INDEX", Refusal::Index),
    ("UNCLEAN", Refusal::Unclean(7, 3)),
    ("SHEET", Refusal::Setup),
    ("USERBITS", Refusal::UserBits),
    ("TAGS", Refusal::Tags(7)),
];

// A line that can't be written ends the program with that error.
fn main(rt: HostRuntime) -> io::Result<()> {
    for (name, refused) in ROWS {
        let Code(number, place, rule) = code_of(refused);
        println!(rt; "{name} refusal={number} place={place} rule={rule}")?;
    }
    Ok(())
}
