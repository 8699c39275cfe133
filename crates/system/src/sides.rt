// What the terms of an equation add to its rows of the system: for each oil index k the blocks A·L·Q2 and Q1·R·B, 25 bytes each; their entries times B and A,
// added up over the terms; and the rows made of these products.
ghost use Rattle.std.specs.Prelude.{◌≡◌, ℕ, ◌+◌, ◌*◌, ◌<◌, ◌≤◌, length};
ghost use Rattle.rows.specs.PlusRows.{PlusRows};
ghost use Rattle.matrix.specs.Block.{view, block_bytes, stride};
ghost use Rattle.matrix.specs.Promises.{coefficients};
ghost use Rattle.sets.specs.Sets.{most_row};
ghost use Rattle.system.specs.Sides.{Sides, side_of, outer_row, cell_gain, row_gain};

use super::blocks::combined;
use matrix::{BYTES, Block, STRIDE};

// out becomes, for each k below count, the block first · (what the coefficients q combine of the table) · last; and zeros behind them.
// The left sums go down the table's block rows and by k across; the right sums go across and by k down.
// `down` and `across` are strides, not a switch: the step is one for both kinds of sums.
pub fn fill_sides(
    out: &mut [u8],
    l: usize,
    count: usize,
    first: Block,
    last: Block,
    table: &[u8],
    w: usize,
    row: usize,
    down: usize,
    across: usize,
    q: [u8; STRIDE],
)
    requires l_nonzero { (0 < l) × ((l ≤ stride) × (count * block_bytes ≤ length out.old)) }
    requires by_index { (k x : ℕ) → k < count → x < l → ((row + k * across + x * down + 1) * l * w ≤ length table.now) × ((k * down + x * across + 1) * l ≤ w) }
    ensures { Sides l count
        (side_of l (view first) (coefficients q) table.now w row down across (view last))
        out.new × (length out.new ≡ length out.old) }
{
    rows::clear(out);
    for k in 0..count {
        let middle = combined(table, l, w, row + k * across, k * down, down, across, q);
        let right = matrix::product(l, middle, last);
        let side = matrix::product(l, first, right);
        rows::add_scaled(out, k * BYTES, &side, 0, BYTES, 1);
    }
}

// Row (k·l + r)·l + y of the products, in rows of l·5 bytes, gains the entry (r, y) of block k of the sides times the l rows of the block m.
pub fn add_outer(products: &mut [u8], l: usize, count: usize, sides: &[u8], m: &[u8])
    requires l_nonzero { (0 < l) × ((l ≤ stride) × (count * l * l * (l * stride) ≤ length products.old)) }
    requires block_bytes_in_bounds { (count * block_bytes ≤ length sides.now) × (block_bytes ≤ length m.now) }
    ensures { PlusRows products.old 0 (count * l * l) (l * stride) (outer_row l sides.now m.now) products.new }
{
    let width = l * STRIDE;
    let total = count * l * l;
    for z in 0..total {
        let k = z / l / l * BYTES;
        let scalar = sides[k + (z / l % l * STRIDE + z % l)];
        rows::add_scaled(products, z * width, m, 0, width, scalar);
    }
}

// The row of entry (r, c) of an equation, from byte `at` on, gains for unknown (k; y, b) the byte (c, b) of row (k, r, y) of the left products
// and the byte (r, b) of row (k, y, c) of the right products.
fn add_row(
    g: &mut [u8],
    at: usize,
    l: usize,
    count: usize,
    lefts: &[u8],
    rights: &[u8],
    r: usize,
    c: usize,
)
    requires l_in_bounds { (at + count * l * l ≤ length g.old) × ((r < l) × ((c < l) × (l ≤ stride))) }
    requires stride_in_bounds { (count * l * l * (l * stride) ≤ length lefts.now) × (count * l * l * (l * stride) ≤ length rights.now) }
    ensures { PlusRows g.old at (count * l) l (cell_gain l lefts.now rights.now r c) g.new }
{
    let width = l * STRIDE;
    let total = count * l;
    for q in 0..total {
        let left = (q / l * l + r) * l + q % l;
        let right = q * l + c;
        rows::add_scaled(g, at + q * l, lefts, left * width + c * STRIDE, l, 1);
        rows::add_scaled(g, at + q * l, rights, right * width + r * STRIDE, l, 1);
    }
}

// The l·l rows of one equation, in rows of count·l·l + 1 bytes from byte `at` on, gain what the products of all its terms give. The last byte of each row stays.
pub fn add_rows(g: &mut [u8], at: usize, l: usize, count: usize, lefts: &[u8], rights: &[u8])
    requires l_in_bounds { (at + l * l * (count * l * l + 1) ≤ length g.old) × ((0 < l) × ((l ≤ stride) × (count * l * l ≤ most_row))) }
    requires stride_in_bounds { (count * l * l * (l * stride) ≤ length lefts.now) × (count * l * l * (l * stride) ≤ length rights.now) }
    ensures { PlusRows g.old at (l * l) (count * l * l + 1)
        (row_gain l count lefts.now rights.now) g.new }
{
    let width = count * l * l + 1;
    let total = l * l;
    for e in 0..total {
        add_row(g, at + e * width, l, count, lefts, rights, e / l, e % l);
    }
}
