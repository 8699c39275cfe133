// The reader of exercise books (page 02, Req 13): a book is taken or refused; a cursor hands out each field's numbers, its parts as parts of the caller's book, and its bytes.
// What a book, a field and the cursor are stands in `books`.
#![tactic(auto)]

mod cursor;
mod fields;
mod reader;

pub use cursor::{copy_field, field_at, part};
pub use fields::{field, payload};
pub use reader::{is_whole, read};

// What the cursor tells of a block: a field, which is page 02's 0, or no further field, its 1.
#[derive(Clone, Copy, Debug, PartialEq, Eq)]
pub enum Next {
    Field,
    End,
}
