// Runs the papers' bench cases, and cases worked from the change requests, through the library's calls and prints what each
// answers, a line an answer. What it must print is in the file stdout, typed from the papers.
// The starred cases are also proved of the definitions (specs/Starred).
#![tactic(auto)]

mod bursts;
mod cuts;
mod merges;
mod streams;
mod writes;

use std::io;

// An answer that can't be written ends the program with that error.
fn main(rt: HostRuntime) -> io::Result<()> {
    streams::packed(&rt)?;
    streams::three_pairs(&rt)?;
    streams::findings(&rt)?;
    streams::resets(&rt)?;
    streams::levels(&rt)?;
    streams::bounds(&rt)?;
    streams::fields(&rt)?;
    streams::user_bits(&rt)?;
    streams::user_bounds(&rt)?;
    streams::user_takes(&rt)?;
    bursts::beats(&rt)?;
    bursts::wrap(&rt)?;
    bursts::boundary(&rt)?;
    bursts::counts(&rt)?;
    bursts::top(&rt)?;
    cuts::incr(&rt)?;
    cuts::others(&rt)?;
    writes::lanes(&rt)?;
    writes::counts(&rt)?;
    writes::refusals(&rt)?;
    merges::turns(&rt)?;
    merges::refusals(&rt)
}
