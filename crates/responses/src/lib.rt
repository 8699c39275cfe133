// The reader of the published response files, page 02, Req 01.
// The reader is a state by value: `start`, `step` for a byte, `feed` for a piece, `end`. Beside it: the refusal of a whole file, a value decoded, a field collected,
// the text of what is told. What is meant stands in response_format, what the reader does byte by byte in response_machine.
#![tactic(auto)]

mod collecting;
mod reading;
mod telling;

pub use collecting::{collect, find};
pub use reading::{absorb, end, feed, is_stopped, refusal, start, step};
pub use response_lines::decode;
pub use telling::{end_text, entry_text, event_text, refused_text};

// A text that stands at the end of 80 bytes, from a place on; zeros before it.
// An array of fixed length, and no `String`: the project uses no heap.
#[derive(Clone, Copy)]
pub struct Text {
    pub bytes: [u8; 80],
    pub from: usize,
}
