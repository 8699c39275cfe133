// Page 02's exercise books. Each export calls the function of `snova` with the same name, and promises what it promises.
ghost use Rattle.snova.specs.BookCalls.{BookWrite, BookRead, BookField, BookPayload, BookSalvage};

// The fields that the lists tell, as a book: 0, 45, 46 or 20.
#[unsafe(no_mangle)]
pub extern "C" fn snova_book_write(
    exercises: &[u16],
    kinds: &[u8],
    sizes: &[usize],
    payload: &[u8],
    book: &mut [u8],
) -> u32
    ensures { BookWrite exercises.now kinds.now sizes.now payload.now book.old result book.new }
{
    snova::snova_book_write(exercises, kinds, sizes, payload, book)
}

// The reader's answer: 0, 40, 41, 42 or 43.
#[unsafe(no_mangle)]
pub extern "C" fn snova_book_read(book: &[u8]) -> u32
    ensures { BookRead book.now result }
{
    snova::snova_book_read(book)
}

// The field that begins at a block: 0 and its exercise, kind, size and the block after it; 1 no further field; 40 to 43; 20.
#[unsafe(no_mangle)]
pub extern "C" fn snova_book_field(book: &[u8], block: usize, numbers: &mut [u64]) -> u32
    ensures { BookField book.now block numbers.old result numbers.new }
{
    snova::snova_book_field(book, block, numbers)
}

// The bytes of the field that begins at a block: 0, 40 to 43, or 20.
#[unsafe(no_mangle)]
pub extern "C" fn snova_book_payload(book: &[u8], block: usize, output: &mut [u8]) -> u32
    ensures { BookPayload book.now block output.old result output.new }
{
    snova::snova_book_payload(book, block, output)
}

// The salvage of a bad card: 0 and the count of kept blocks, 40 or 20.
#[unsafe(no_mangle)]
pub extern "C" fn snova_book_salvage(
    book: &[u8],
    output: &mut [u8],
    list: &mut [u8],
    kept: &mut usize,
) -> u32
    ensures { BookSalvage book.now output.old list.old kept.old result output.new list.new kept.new }
{
    snova::snova_book_salvage(book, output, list, kept)
}
