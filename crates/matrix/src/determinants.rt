// Determinants: the sum over the first column of entry times its cofactor; a cofactor is a smaller determinant. The two functions call each other, and the size falls.
ghost use Rattle.std.specs.Prelude.{◌≡◌, ◌-◌, ◌<◌, ◌≤◌};
ghost use Rattle.matrix.specs.Determinant.{det, minor};
ghost use Rattle.matrix.specs.Determinant.{skip as row_left};
ghost use Rattle.matrix.specs.Block.{view, block, cell, block_bytes, stride};

use super::blocks::{Block, entry, filled};
use field::{add, mul};

// Row i of what is left when row r is struck out.
// One select: no plainer.
fn skip(r: usize, i: usize) -> usize
    requires { i < stride }
    ensures { result ≡ row_left r i }
{
    if i < r { i } else { i + 1 }
}

// The n by n matrix m without row r and without the first column.
#[tactic(auto, using(crate::proofs::Entries::skip_below), unfolding(crate::specs::Determinant::minor))]
fn minor_of(n: usize, m: Block, r: usize) -> Block
    requires { (0 < n) × (n ≤ stride) }
    ensures { result ≡ block (n - 1) (minor (view m) r) }
{
    filled(n - 1, |i, c| entry(m, skip(r, i), c + 1))
}

// The determinant of a matrix of size 0, 1 or 2, written out.
fn small_determinant(n: usize, m: Block) -> u8
    requires { n ≤ 2 }
    ensures { result ≡ det n (view m) }
{
    if n == 0 {
        return 1;
    }
    if n == 1 {
        return mul(entry(m, 0, 0), 1);
    }
    let down = mul(entry(m, 0, 0), entry(m, 1, 1));
    let up = mul(entry(m, 1, 0), entry(m, 0, 1));
    add(down, up)
}

// The cofactor of row r's entry of a 3 by 3 matrix, written out: two rows and two columns are left.
fn small_cofactor(m: Block, r: usize) -> u8
    ensures { result ≡ det 2 (minor (view m) r) }
{
    let first = skip(r, 0);
    let second = skip(r, 1);
    let down = mul(entry(m, first, 1), entry(m, second, 2));
    let up = mul(entry(m, second, 1), entry(m, first, 2));
    add(down, up)
}

// The cofactor of row r's entry in the first column: the determinant without that row and column.
#[cycle(cofactor_determinant)]
fn cofactor(n: usize, m: Block, r: usize) -> u8
    requires { (0 < n) × (n ≤ stride) }
    ensures { result ≡ det (n - 1) (minor (view m) r) }
{
    if n == 3 {
        return small_cofactor(m, r);
    }
    let rest = minor_of(n, m, r);
    determinant(n - 1, rest)
}

// The determinant of the n by n matrix m.
#[cycle(cofactor_determinant)]
pub fn determinant(n: usize, m: Block) -> u8
    requires { n ≤ stride }
    ensures { result ≡ det n (view m) }
{
    if n <= 2 {
        return small_determinant(n, m);
    }
    let mut sum: u8 = 0;
    for r in 0..n {
        sum = add(sum, mul(entry(m, r, 0), cofactor(n, m, r)));
    }
    sum
}
