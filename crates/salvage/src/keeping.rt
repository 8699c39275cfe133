// Fourth pass: the blocks that are listed 0 go into the output one after the other, their checks made anew.
ghost use Rattle.std.specs.Prelude.{◌≡◌};
ghost use Rattle.salvage.specs.Keeping.{KeepAsks, Keeps, Listed, KeptAll};

// Block b of the book goes into block k of the output where it is listed 0. The answer is the next block of the output.
fn keep_block(output: &mut [u8], k: usize, book: &[u8], b: usize, number: u8) -> usize
    requires { KeepAsks output.old k book.now b number }
    ensures { Keeps output.old k book.now b number result output.new }
{
    if number != 0 {
        return k;
    }
    let head = blocks::head_of(blocks::block_at(book, b));
    let payload = book_reader::part(book, b);
    let from = 512 * k;
    let to = from + 512;
    blocks::fill(&mut output[from..to], head, payload, (k + 1) as u32);
    k + 1
}

// Every block that is listed 0, in old order. The answer is how many there are.
pub fn keep(output: &mut [u8], book: &[u8], list: &[u8]) -> usize
    requires { Listed output.old book.now list.now }
    ensures { KeptAll output.old book.now result output.new }
{
    let n = book.len() / 512;
    let mut k = 0;
    for b in 0..n {
        k = keep_block(output, k, book, b, list[b]);
    }
    k
}
