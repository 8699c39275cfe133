// What the writer is lent, looked at: lists that fit each other, fields in order, the count of blocks; and what a call is refused for.
ghost use Rattle.std.specs.Prelude.{◌≡◌, ◌+◌, ◌*◌, min, eqb, length};
ghost use Rattle.ground.specs.Answers.{first, number_of};
ghost use Rattle.book_writer.specs.Lists.{lists_fit, field_fits, orderly, total, blocks as Lists·blocks, write_rules};

use crate::parts::parts_in;
use ground::{Refusal, demand};

// The sizes add up to the number of bytes.
fn sizes_fit(sizes: &[usize], bytes: usize) -> bool
    ensures { result ≡ eqb (total (length sizes.now) sizes.now) bytes }
{
    let mut at = 0;
    for &size in sizes {
        if bytes - at < size {
            return false;
        }
        at += size;
    }
    at == bytes
}

// The lists are of one length, and the bytes are as many as the sizes say.
#[tactic(auto, unfolding(crate::specs::Lists::lists_fit))]
fn lists_fit(exercises: &[u16], kinds: &[u8], sizes: &[usize], payload: &[u8]) -> bool
    ensures { result ≡ lists_fit exercises.now kinds.now sizes.now payload.now }
{
    let n = exercises.len();
    kinds.len() == n && sizes.len() == n && sizes_fit(sizes, payload.len())
}

// Exercise and kind as one number: the order of fields.
fn rank_of(e: u16, k: u8) -> u32
    ensures { result ≡ 8 * e + k }
{
    8 * u32::from(e) + u32::from(k)
}

// A field is of kind 1 to 7, not empty, and after the field of rank r.
fn field_fits(r: u32, e: u16, k: u8, n: usize) -> bool
    ensures { result ≡ field_fits r e k n }
{
    1 <= k && k <= 7 && 1 <= n && r < rank_of(e, k)
}

// Every field fits, one after the other.
fn is_orderly(exercises: &[u16], kinds: &[u8], sizes: &[usize]) -> bool
    requires { (length kinds.now ≡ length exercises.now) × (length sizes.now ≡ length exercises.now) }
    ensures { result ≡ orderly (length exercises.now) 0 0 exercises.now kinds.now sizes.now }
{
    let mut rank: u32 = 0;
    // By index: a zip of three lists would be no plainer.
    for i in 0..exercises.len() {
        let e = exercises[i];
        let k = kinds[i];
        if !field_fits(rank, e, k, sizes[i]) {
            return false;
        }
        rank = rank_of(e, k);
    }
    true
}

// How many blocks the fields take, or 65,537 where there are more.
fn count_blocks(sizes: &[usize]) -> usize
    ensures { result ≡ min (Lists·blocks (length sizes.now) sizes.now) 65537 }
{
    let mut count = 0;
    for &size in sizes {
        count = (count + parts_in(size)).min(65537);
    }
    count
}

// The first refusal that applies to a call of write, in the order 45, 46, 20.
pub fn check_write(
    exercises: &[u16],
    kinds: &[u8],
    sizes: &[usize],
    payload: &[u8],
    out: &[u8],
) -> Result<(), Refusal>
    ensures { number_of result ≡ first (write_rules exercises.now kinds.now sizes.now payload.now out.now) }
{
    if !lists_fit(exercises, kinds, sizes, payload) {
        return Err(Refusal::BadFields);
    }
    if !is_orderly(exercises, kinds, sizes) {
        return Err(Refusal::BadFields);
    }
    let count = count_blocks(sizes);
    if 65536 < count {
        return Err(Refusal::TooManyBlocks);
    }
    demand(out.len() == 512 * count, Refusal::OutputLength)
}
