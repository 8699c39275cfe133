// Exercise books (page 02, Req 13 and Req 14), theory only: a book of blocks, its parts and fields, what is written of them, the reader's cursor, and what salvage keeps.
#![tactic(auto)]

// A field that stands at a block, with the block after it.
#[derive(Clone, Copy, Debug, PartialEq, Eq)]
pub struct FieldAt {
    pub exercise: u16,
    pub kind: u8,
    pub size: usize,
    pub after: usize,
}
