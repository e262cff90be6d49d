// The library for other languages: each call as a C function on plain numbers and slices (a pointer, then a length), with
// the answer as a struct of paper 01's numbers. Nothing is decided here; the calls are in the crates below.
#![tactic(auto)]

mod axi3_calls;
mod burst_calls;
mod merge_calls;
mod report_calls;
mod stream_calls;
mod write_calls;

pub use axi3_calls::urd_axi3_cut;
pub use burst_calls::{urd_burst_beat, urd_burst_judge, urd_burst_step};
pub use merge_calls::urd_merge;
pub use report_calls::urd_report;
pub use stream_calls::{
    urd_data_octets, urd_downsize, urd_fill_in, urd_harvest, urd_judge, urd_repack,
};
pub use write_calls::urd_judge_writes;
