// The reader's machine, byte by byte: theory. The types are the code's own; specs/Machine says what each byte does, and proofs/Reading, Events and Seeks prove that this
// means the format of response_format. The code stands in responses, so that an edit of it does not check the theory again.
#![tactic(auto)]

use ground::Refusal;
use response_format::{Event, Numbers};

// What a line has come to, from its first byte to the last one read.
#[derive(Clone, Copy)]
pub enum Line {
    // nothing yet
    Empty,
    // it starts with #
    Comment,
    // so many bytes of the label that is due, and no other
    Label(u8),
    // another text; so many bytes of " = " stand last, and 3: it stood somewhere
    Other(u8),
    // the label, and in the value a byte that is no digit
    Broken,
    // the label of a number, and no digit
    NoDigit,
    // a number so far, exact up to 4294967295
    Number(u64),
    // digit pairs
    Pairs,
    // digit pairs and the first digit of one more
    Half(u8),
    // a line before was refused
    Stopped(Refusal),
}

// How many fields of the entry are read (8: all, and an empty line is due), its numbers, and the line.
#[derive(Clone, Copy)]
pub struct Reader {
    pub fields: u8,
    pub numbers: Numbers,
    pub line: Line,
}

// What a line is at its line feed.
#[derive(Clone, Copy)]
pub enum Closed {
    Gap,
    Skipped,
    Value(u64),
    Bytes,
    Fault(Refusal),
    Over(Refusal),
}

// The reader after a byte, and what the byte brings, if anything.
#[derive(Clone, Copy)]
pub struct Stepped {
    pub reader: Reader,
    pub event: Option<Event>,
}

// A reader after a part of a piece: the entry or the refusal that ends it, if any, and where the part ends.
#[derive(Clone, Copy)]
pub struct Fed {
    pub reader: Reader,
    pub event: Option<Event>,
    pub at: usize,
}

// Where the line of a field stands in a file, without its line feed.
#[derive(Clone, Copy)]
pub struct Span {
    pub from: usize,
    pub to: usize,
}
