// Code for one line of a response file, page 02, Req 01: digits and decoded values, the labels, a line byte by byte.
// What is meant stands in response_format, what a line does byte by byte in response_machine.
#![tactic(auto)]

mod digits;
mod labels;
mod line;

pub use digits::{decode, digit};
pub use labels::label_length;
pub use line::{close, handed, next, whole};
