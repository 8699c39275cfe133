// Sums of blocks of a byte table by the coefficients of Algorithm 1, by rows of l bytes, so that only entries inside l cost work.
ghost use Rattle.std.specs.Prelude.{◌≡◌, ℕ, ◌+◌, ◌*◌, ◌<◌, ◌≤◌, length};
ghost use Rattle.rows.specs.PlusRows.{PlusRows};
ghost use Rattle.rows.specs.Tile.{tile};
ghost use Rattle.matrix.specs.Matrix.{scale_m};
ghost use Rattle.matrix.specs.Block.{block, block_bytes, stride};
ghost use Rattle.matrix.specs.BlockRows.{block_row};
ghost use Rattle.matrix.specs.Promises.{coefficients};
ghost use Rattle.system.specs.Sides.{combined_from};

use matrix::{BYTES, Block, STRIDE};

// The l rows of a block, from byte 0 of sum on, gain factor times block (j, k) of a table in rows of w bytes.
fn add_tile(sum: &mut [u8], l: usize, factor: u8, table: &[u8], w: usize, j: usize, k: usize)
    requires { (l ≤ stride) × ((block_bytes ≤ length sum.old) × (((j + 1) * l * w ≤ length table.now) × ((k + 1) * l ≤ w))) }
    ensures { PlusRows sum.old 0 l stride (block_row l (scale_m factor (tile l w table.now j k))) sum.new }
{
    for r in 0..l {
        rows::add_scaled(sum, r * STRIDE, table, (j * l + r) * w + k * l, l, factor);
    }
}

// The sum over x below l of coefficient q(x) times block (row + x·down, column + x·across) of a table in rows of w bytes.
pub fn combined(
    table: &[u8],
    l: usize,
    w: usize,
    row: usize,
    column: usize,
    down: usize,
    across: usize,
    q: [u8; STRIDE],
) -> Block
    requires l_le_stride { l ≤ stride }
    requires by_index { (x : ℕ) → x < l → ((row + x * down + 1) * l * w ≤ length table.now) × ((column + x * across + 1) * l ≤ w) }
    ensures { result ≡ block l (combined_from l (coefficients q) table.now w row column down across) }
{
    let mut sum = [0u8; BYTES];
    for x in 0..l {
        let factor = q[x];
        add_tile(
            &mut sum,
            l,
            factor,
            table,
            w,
            row + x * down,
            column + x * across,
        );
    }
    sum
}
