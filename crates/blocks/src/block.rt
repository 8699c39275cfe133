// What is read off a block: its words, its check, its head and its form; and block b of a book.
ghost use Rattle.std.specs.Prelude.{◌≡◌, ◌+◌, ◌-◌, ◌*◌, ◌/◌, ◌<◌, ◌≤◌, length};
ghost use Rattle.ground.specs.Tests.{every};
ghost use Rattle.blocks.specs.Block.{pair, word, check_of, head_of, zero_at, formed, size_of, IsBlock};

use crate::Head;

// The two bytes from byte i on.
#[tactic(auto, unfolding(crate::specs::Block::pair))]
fn pair_at(block: &[u8], i: usize) -> u16
    requires { i + 1 < length block.now }
    ensures { result ≡ pair block.now i }
{
    u16::from_le_bytes([block[i], block[i + 1]])
}

// Word k.
#[tactic(auto, unfolding(crate::specs::Block::word))]
pub fn word_at(block: &[u8], k: usize) -> u32
    requires { 4 * k + 3 < length block.now }
    ensures { result ≡ word block.now k }
{
    let i = 4 * k;
    u32::from_le_bytes([block[i], block[i + 1], block[i + 2], block[i + 3]])
}

// The sum modulo 2^32 of the first 127 words and the place.
pub fn check_of(block: &[u8], place: u32) -> u32
    requires { 508 ≤ length block.now }
    ensures { result ≡ check_of place block.now }
{
    let mut sum = place;
    for k in 0..127 {
        sum = sum.wrapping_add(word_at(block, k));
    }
    sum
}

// What a block says of itself.
#[tactic(auto, unfolding(crate::specs::Block::head_of))]
pub fn head_of(block: &[u8]) -> Head
    requires { length block.now ≡ 512 }
    ensures { result ≡ head_of block.now }
{
    Head {
        exercise: pair_at(block, 0),
        kind: block[2],
        part: pair_at(block, 4),
    }
}

// The payload length.
#[tactic(auto, unfolding(crate::specs::Block::size_of))]
pub fn size_of(block: &[u8]) -> usize
    requires { length block.now ≡ 512 }
    ensures { result ≡ size_of block.now }
{
    usize::from(pair_at(block, 6))
}

// Every byte between a payload of so many bytes and the check is zero.
fn is_padded(block: &[u8], size: usize) -> bool
    requires { (length block.now ≡ 512) × (size ≤ 500) }
    ensures { result ≡ every (500 - size) (zero_at block.now size) }
{
    block[8 + size..508].iter().all(|x| *x == 0)
}

// Kind 1 to 7, the zero byte, payload length 1 to 500, padding zero.
#[tactic(auto, unfolding(crate::specs::Block::formed, crate::specs::Block::padded))]
pub fn is_formed(block: &[u8]) -> bool
    requires { length block.now ≡ 512 }
    ensures { result ≡ formed block.now }
{
    let kind = block[2];
    let size = size_of(block);
    1 <= kind && kind <= 7 && block[3] == 0 && 1 <= size && size <= 500 && is_padded(block, size)
}

// Block b of a book: a part of the caller's bytes.
pub fn block_at(book: &[u8], b: usize) -> &[u8]
    requires { b < length book.now / 512 }
    ensures { IsBlock book.now b result.now }
{
    let from = 512 * b;
    let to = from + 512;
    &book[from..to]
}
