// The reader: a book is taken, or refused by the lowest fault of its first block at fault.
ghost use Rattle.std.specs.Prelude.{◌≡◌, true, ◌/◌, length};
ghost use Rattle.ground.specs.Answers.{number_of};
ghost use Rattle.blocks.specs.Turn.{start};
ghost use Rattle.books.specs.Book.{whole, fault_from, read_number};

use ground::{Refusal, demand};

// Whole blocks, and not too many.
#[tactic(auto, unfolding(books::specs::Book::whole))]
pub fn is_whole(book: &[u8]) -> bool
    ensures { result ≡ whole book.now }
{
    let n = book.len();
    n % 512 == 0 && n / 512 <= 65536
}

// The fault of the first block at fault, if there is one.
fn first_fault(book: &[u8]) -> Result<(), Refusal>
    requires { whole book.now ≡ true }
    ensures { number_of result ≡ fault_from (length book.now / 512) 1 start book.now }
{
    let n = book.len() / 512;
    let mut before = blocks::START;
    for b in 0..n {
        let block = blocks::block_at(book, b);
        blocks::fault_of(block, (b + 1) as u32, before)?;
        before = blocks::head_of(block);
    }
    Ok(())
}

// 40 size not whole blocks or too many, 41 check, 42 kind, zero byte, length or padding, 43 out of turn.
#[tactic(auto, unfolding(books::specs::Book::read_number))]
pub fn read(book: &[u8]) -> Result<(), Refusal>
    ensures { number_of result ≡ read_number book.now }
{
    demand(is_whole(book), Refusal::BookSize)?;
    first_fault(book)
}
