// The C interface of exercise books (page 02, Req 13) and of salvage (Req 14): each function on lent buffers, a pointer and then a length each, answered by the page's number.
// The promise is that of the function behind it (specs/BookCalls.antt).
// Alike in form to the other calls: the C interface.
ghost use Rattle.snova.specs.BookCalls.{BookWrite, BookRead, BookField, BookPayload, BookSalvage};

// The fields that the lists tell, as a book: 0, 45, 46 or 20.
pub fn snova_book_write(
    exercises: &[u16],
    kinds: &[u8],
    sizes: &[usize],
    payload: &[u8],
    book: &mut [u8],
) -> u32
    ensures { BookWrite exercises.now kinds.now sizes.now payload.now book.old result book.new }
{
    ground::number(book_writer::write(exercises, kinds, sizes, payload, book))
}

// The reader's answer: 0, 40, 41, 42 or 43.
pub fn snova_book_read(book: &[u8]) -> u32
    ensures { BookRead book.now result }
{
    ground::number(book_reader::read(book))
}

// The field that begins at a block: 0 and its exercise, kind, size and the block after it; 1 no further field; 40 to 43; 20.
pub fn snova_book_field(book: &[u8], block: usize, numbers: &mut [u64]) -> u32
    ensures { BookField book.now block numbers.old result numbers.new }
{
    ground::number(book_reader::field(book, block, numbers))
}

// The bytes of the field that begins at a block: 0, 40 to 43, or 20.
pub fn snova_book_payload(book: &[u8], block: usize, output: &mut [u8]) -> u32
    ensures { BookPayload book.now block output.old result output.new }
{
    ground::number(book_reader::payload(book, block, output))
}

// The salvage of a bad card: 0 and the count of kept blocks, 40 or 20.
pub fn snova_book_salvage(book: &[u8], output: &mut [u8], list: &mut [u8], kept: &mut usize) -> u32
    ensures { BookSalvage book.now output.old list.old kept.old result output.new list.new kept.new }
{
    let answer = salvage::salvage(book, output, list);
    // `let .. else`, which page 01 names; the C interface gives the number, and `kept` is written only where nothing is refused
    let Ok(count) = answer else {
        return ground::number(answer);
    };
    *kept = count;
    0
}
