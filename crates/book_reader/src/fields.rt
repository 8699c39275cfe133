// A field's numbers and its bytes, of a book that is read first: the reader's refusals, then 20.
ghost use Rattle.std.specs.Prelude.{◌≡◌};
ghost use Rattle.ground.specs.Outcome.{Writes};
ghost use Rattle.books.specs.Cursor.{bytes_at};
ghost use Rattle.book_reader.specs.Told.{payload_refusal, number_of_next, next_number, Tells};

use crate::Next;
use crate::cursor::{copy_field, field_at};
use crate::reader::read;
use ground::{PageNumber, Refusal, demand};

// The page's number.
impl PageNumber for Next {
    ghost page_number = { number_of_next };

    fn page_number(self) -> u32 {
        match self {
            Next::Field => 0,
            Next::End => 1,
        }
    }
}

// The field that begins at block b: its exercise, kind, size and the block after it go into the four numbers. The reader's refusals, then 20.
pub fn field(book: &[u8], b: usize, numbers: &mut [u64]) -> Result<Next, Refusal>
    ensures { Tells book.now b numbers.old (next_number result) numbers.new }
{
    read(book)?;
    demand(numbers.len() == 4, Refusal::OutputLength)?;
    let Some(field) = field_at(book, b) else {
        return Ok(Next::End);
    };
    numbers.copy_from_slice(&[
        u64::from(field.exercise),
        u64::from(field.kind),
        field.size as u64,
        field.after as u64,
    ]);
    Ok(Next::Field)
}

// The bytes of the field that begins at block b. The reader's refusals, then 20.
#[tactic(auto, using(crate::specs::Told::payload_handed_up))]
pub fn payload(book: &[u8], b: usize, output: &mut [u8]) -> Result<(), Refusal>
    ensures { Writes (payload_refusal book.now b output.old) (bytes_at book.now b) output.old result output.new }
{
    read(book)?; // the reader's refusals are handed up
    copy_field(book, b, output)
}
