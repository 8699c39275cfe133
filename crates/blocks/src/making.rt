// A block is made of its head, its payload and its place: the opening, the payload with its padding, then the check.
ghost use Rattle.std.specs.Prelude.{◌≡◌, ◌+◌, ◌≤◌, length, slice_index};
ghost use Rattle.ground.specs.Segment.{Segment};
ghost use Rattle.blocks.specs.Block.{block_of};
ghost use Rattle.blocks.specs.Made.{opening_of, part_with};

use crate::Head;
use crate::block::check_of;

// A block's first eight bytes.
fn opening(head: Head, size: usize) -> [u8; 8]
    requires { size ≤ 500 }
    ensures { result ≡ opening_of head size }
{
    let exercise = head.exercise.to_le_bytes();
    let part = head.part.to_le_bytes();
    let length = (size as u16).to_le_bytes();
    [
        exercise[0],
        exercise[1],
        head.kind,
        0,
        part[0],
        part[1],
        length[0],
        length[1],
    ]
}

// The n bytes from byte `at` on become those of src, and zeros past its end.
pub fn put(block: &mut [u8], at: usize, n: usize, src: &[u8])
    requires { at + n ≤ length block.old }
    ensures { Segment block.old at n (λ k. slice_index src.now k) block.new }
{
    let m = n.min(src.len());
    // no copy_from_slice: it becomes a call of memmove, and the archive needs memcpy and memset alone
    for k in 0..m {
        block[at + k] = src[k];
    }
    block[at + m..at + n].fill(0);
}

// The block of a part at a place.
pub fn fill(block: &mut [u8], head: Head, payload: &[u8], place: u32)
    requires { (length block.old ≡ 512) × (length payload.now ≤ 500) }
    ensures { block.new ≡ block_of place (part_with head payload.now) }
{
    let first = opening(head, payload.len());
    put(block, 0, 8, &first);
    put(block, 8, 500, payload);
    let check = check_of(block, place);
    put(block, 508, 4, &check.to_le_bytes());
}
