// First pass: each block is judged against the nearest good block before it, or as the first.
ghost use Rattle.std.specs.Prelude.{◌≡◌};
ghost use Rattle.salvage.specs.Judging.{Whole, faults_of};

// Each block's fault, or 0, goes into the list.
pub fn judge(book: &[u8], list: &mut [u8])
    requires { Whole book.now list.old }
    ensures { list.new ≡ faults_of book.now }
{
    let n = book.len() / 512;
    let mut before = blocks::START;
    for b in 0..n {
        let block = blocks::block_at(book, b);
        let fault = blocks::fault_of(block, (b + 1) as u32, before);
        list[b] = ground::number(fault) as u8;
        if fault.is_ok() {
            before = blocks::head_of(block);
        }
    }
}
