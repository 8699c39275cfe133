// The format of the published response files, page 02, Req 01: what an accepted file is, what is refused, what a file tells.
// Theory alone. The types are those that a reader's events and answers are made of; what has to be believed stands in
// specs/Fields, Format, Rules, Tells, Lent and Text.
#![tactic(auto)]

use ground::Refusal;

// The numbers of an entry.
#[derive(Clone, Copy)]
pub struct Numbers {
    pub count: u64,
    pub mlen: u64,
    pub smlen: u64,
}

// What a file tells, in its order. Fields are numbered from 0, in the file's order.
// Decoded bytes stand only once their field's end is told: a refusal in the same line takes them back.
#[derive(Clone, Copy)]
pub enum Event {
    // a decoded byte of this field
    Byte(u8, u8),
    // this field is a number
    Number(u8, u64),
    // this field has ended: its bytes stand
    Ended(u8),
    // sm has ended, and the entry with it
    Entry(Numbers),
    Refused(Refusal),
}

// What becomes of the question for one field of one entry, where nothing is refused.
// A type of its own beside Next, Verdict and Signing, each with two names of the page: one type for all would name none.
#[derive(Clone, Copy)]
pub enum Collected {
    // found, and its bytes written, all of them
    Written,
    // the file is at its end, sound so far, and has no such field
    Absent,
}
