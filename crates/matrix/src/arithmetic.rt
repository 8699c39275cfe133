// Products, by rows; sums, multiples and transposes of matrices, each entry by a named function of the field. 0 outside l.
ghost use Rattle.std.specs.Prelude.{◌≡◌, ◌*◌, ◌<◌, ◌≤◌, length};
ghost use Rattle.rows.specs.Plus.{Plus};
ghost use Rattle.matrix.specs.Matrix.{add_m, mul_m, scale_m, transpose};
ghost use Rattle.matrix.specs.Block.{view, block, block_bytes, stride};

use super::blocks::{BYTES, Block, STRIDE, entry, filled};
use field::{add, mul};

// The l bytes of row r of a block gain row r of a · b: entry y of the left row times row y of b, one after the other.
fn add_product_row(out: &mut [u8], l: usize, a: &[u8], b: &[u8], r: usize)
    requires l_le_stride { (l ≤ stride) × (r < l) }
    requires block_bytes_in_bounds { (block_bytes ≤ length out.old) × ((block_bytes ≤ length a.now) × (block_bytes ≤ length b.now)) }
    ensures { Plus out.old (r * stride) l (mul_m l (view a.now) (view b.now) r) out.new }
{
    for y in 0..l {
        let scalar = a[r * STRIDE + y];
        rows::add_scaled(out, r * STRIDE, b, y * STRIDE, l, scalar);
    }
}

// a · b, by its rows.
pub fn product(l: usize, a: Block, b: Block) -> Block
    requires { l ≤ stride }
    ensures { result ≡ block l (mul_m l (view a) (view b)) }
{
    let mut out = [0u8; BYTES];
    for r in 0..l {
        add_product_row(&mut out, l, &a, &b, r);
    }
    out
}

// a + b.
#[tactic(auto, unfolding(crate::specs::Matrix::add_m))]
pub fn plus(l: usize, a: Block, b: Block) -> Block
    ensures { result ≡ block l (add_m (view a) (view b)) }
{
    filled(l, |r, c| add(entry(a, r, c), entry(b, r, c)))
}

// s · a, for an element s.
#[tactic(auto, unfolding(crate::specs::Matrix::scale_m))]
pub fn scaled(l: usize, s: u8, a: Block) -> Block
    ensures { result ≡ block l (scale_m s (view a)) }
{
    filled(l, |r, c| mul(s, entry(a, r, c)))
}

// a transposed.
#[tactic(auto, unfolding(crate::specs::Matrix::transpose))]
pub fn transposed(l: usize, a: Block) -> Block
    ensures { result ≡ block l (transpose (view a)) }
{
    filled(l, |r, c| entry(a, c, r))
}
