// Third pass: a good block of a spoiled exercise is listed 44.
ghost use Rattle.std.specs.Prelude.{◌≡◌};
ghost use Rattle.books.specs.Salvage.{numbers_of};
ghost use Rattle.salvage.specs.Judging.{Judged};
ghost use Rattle.salvage.specs.Marking.{Spoilt};

// The list of faults becomes the list of what became of each block.
fn list_spoiled(list: &mut [u8], book: &[u8], marks: &[u8])
    requires judged { Judged book.now list.old }
    requires spoilt { Spoilt book.now marks.now }
    ensures { list.new ≡ numbers_of book.now }
{
    let n = book.len() / 512;
    for b in 0..n {
        let head = blocks::head_of(blocks::block_at(book, b));
        if list[b] == 0 && marks[usize::from(head.exercise)] == 1 {
            list[b] = 44;
        }
    }
}

// Marks and list: a mark for each exercise number there is.
pub fn settle(book: &[u8], list: &mut [u8])
    requires { Judged book.now list.old }
    ensures { list.new ≡ numbers_of book.now }
{
    let mut marks = [0u8; 65536];
    crate::marking::mark_all(&mut marks, book, list);
    list_spoiled(list, book, &marks);
}
