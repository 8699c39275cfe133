// The cursor: a field's numbers by value, its parts as parts of the caller's book, and its bytes copied into a lent buffer. Any book and any block are answered.
ghost use Rattle.std.specs.Prelude.{◌≡◌, ◌+◌, ◌/◌, ◌<◌, ◌≤◌, min, length, drop};
ghost use Rattle.ground.specs.Outcome.{Writes};
ghost use Rattle.ground.specs.Paste.{Pasted};
ghost use Rattle.books.specs.Book.{book_parts};
ghost use Rattle.books.specs.Fields.{continues};
ghost use Rattle.books.specs.Cursor.{field_at, bytes_at};
ghost use Rattle.book_reader.specs.Parts.{part_start, part_at};
ghost use Rattle.book_reader.specs.Told.{copy_refusal};

use books::FieldAt;
use ground::{Refusal, demand};

// The payload of block b, or the book's empty end where there is no block b: place and contents.
pub fn part(book: &[u8], b: usize) -> &[u8]
    ensures contents { result.now ≡ part_at book.now b }
    ensures place { (result.ref_ptr.0 ≡ book.entry.ref_ptr.0) × (result.ref_ptr.1 ≡ book.entry.ref_ptr.1 + part_start book.now b) }
{
    let n = book.len();
    if n / 512 <= b {
        return &book[n..];
    }
    let from = 512 * b + 8;
    let to = from + blocks::size_of(blocks::block_at(book, b)).min(504);
    &book[from..to]
}

// Block b goes on with a field.
fn goes_on(book: &[u8], b: usize) -> bool
    ensures { result ≡ continues (drop b (book_parts book.now)) }
{
    if book.len() / 512 <= b {
        return false;
    }
    let head = blocks::head_of(blocks::block_at(book, b));
    1 <= head.part
}

// The field that begins at block b, if there is one.
pub fn field_at(book: &[u8], b: usize) -> Option<FieldAt>
    ensures { result ≡ field_at book.now b }
{
    if book.len() / 512 <= b {
        return None;
    }
    let head = blocks::head_of(blocks::block_at(book, b));
    let first = part(book, b);
    let mut size = first.len();
    let mut i = b + 1;
    // `while`, since the blocks say where a field ends, and no count of them is known before: no plainer
    while goes_on(book, i) {
        let more = part(book, i);
        size += more.len();
        i += 1;
    }
    Some(FieldAt {
        exercise: head.exercise,
        kind: head.kind,
        size,
        after: i,
    })
}

// The bytes go into the output from byte `at` on. The answer is the byte after them.
fn put_part(output: &mut [u8], at: usize, bytes: &[u8]) -> usize
    requires { at + length bytes.now ≤ length output.old }
    ensures { (result ≡ at + length bytes.now) × Pasted output.old at bytes.now output.new }
{
    let n = bytes.len();
    blocks::put(output, at, n, bytes);
    at + n
}

// The parts of the field that begins at block b go into the output, which has their length.
fn copy_parts(book: &[u8], b: usize, output: &mut [u8])
    requires { length output.old ≡ length (bytes_at book.now b) }
    ensures { output.new ≡ bytes_at book.now b }
{
    if book.len() / 512 <= b {
        return;
    }
    let mut at = put_part(output, 0, part(book, b));
    let mut i = b + 1;
    // `while`, as in field_at: the same walk, so that the same lemmas carry it
    while goes_on(book, i) {
        at = put_part(output, at, part(book, i));
        i += 1;
    }
}

// How many bytes the field that begins at block b has; none where there is none.
fn field_size(book: &[u8], b: usize) -> usize
    ensures { result ≡ length (bytes_at book.now b) }
{
    match field_at(book, b) {
        Some(field) => field.size,
        None => 0,
    }
}

// The bytes of the field that begins at block b: 0, or 20 where the output has another length.
#[tactic(auto, unfolding(crate::specs::Told::copy_refusal))]
pub fn copy_field(book: &[u8], b: usize, output: &mut [u8]) -> Result<(), Refusal>
    ensures { Writes (copy_refusal book.now b output.old) (bytes_at book.now b) output.old result output.new }
{
    demand(output.len() == field_size(book, b), Refusal::OutputLength)?;
    copy_parts(book, b, output);
    Ok(())
}
