// A field's parts, one after the other into the blocks of the output: each is full but the last.
ghost use Rattle.std.specs.Prelude.{◌≡◌, ◌+◌, ◌*◌, ◌<◌, ◌≤◌, min, length, drop};
ghost use Rattle.ground.specs.Paste.{Pasted};
ghost use Rattle.blocks.specs.Block.{block_of};
ghost use Rattle.books.specs.Book.{written};
ghost use Rattle.books.specs.Fields.{cut, last_part, part_at};

use blocks::Head;

// How many blocks a field of so many bytes takes.
pub fn parts_in(size: usize) -> usize
    ensures { result ≡ last_part size + 1 }
{
    size.saturating_sub(1) / 500 + 1
}

// Part n of a field goes into block b of the output.
fn write_part(out: &mut [u8], b: usize, head: Head, bytes: &[u8])
    requires { (b < 65536) × ((512 * b + 512 ≤ length out.old) × (500 * head.part ≤ length bytes.now)) }
    ensures { Pasted out.old (512 * b) (block_of (b + 1) (part_at head.exercise head.kind head.part (drop (500 * head.part) bytes.now))) out.new }
{
    let at = 500 * usize::from(head.part);
    let end = (at + 500).min(bytes.len());
    let from = 512 * b;
    let to = from + 512;
    blocks::fill(&mut out[from..to], head, &bytes[at..end], (b + 1) as u32);
}

// The parts of a field go into the blocks from b on. The answer is the block after them.
pub fn write_field(out: &mut [u8], b: usize, exercise: u16, kind: u8, bytes: &[u8]) -> usize
    requires { (1 ≤ length bytes.now) × ((b + (last_part (length bytes.now) + 1) ≤ 65536) × (512 * (b + (last_part (length bytes.now) + 1)) ≤ length out.old)) }
    ensures { (result ≡ b + (last_part (length bytes.now) + 1))
        × Pasted out.old (512 * b) (written (b + 1) (cut (last_part (length bytes.now)) exercise kind 0 bytes.now)) out.new }
{
    let count = parts_in(bytes.len());
    for n in 0..count {
        let head = Head {
            exercise,
            kind,
            part: n as u16,
        };
        write_part(out, b + n, head, bytes);
    }
    b + count
}
