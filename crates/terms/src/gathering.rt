// What stands between A and B in a term: the sum over x, y below l of q1(x)·q2(y) times block (index·l + x, y) of a table of power sums, in rows of l·l bytes.
// The l rows of one x lie side by side, so the sum over x is one sum of rows of l·l·l bytes; the sum over y folds what is left.
ghost use Rattle.std.specs.Prelude.{◌≡◌, ◌+◌, ◌*◌, ◌≤◌, length};
ghost use Rattle.sets.specs.Sets.{most_l};
ghost use Rattle.matrix.specs.Block.{block};
ghost use Rattle.matrix.specs.Promises.{coefficients};
ghost use Rattle.terms.specs.Terms.{gathered_from};
ghost use Rattle.terms.specs.Gathering.{folded_from};

use matrix::{BYTES, Block, STRIDE};
use sets::POWERS_ROOM;

// The sum over y of q2(y) times columns y·l, .. , y·l + l - 1 of l rows of l·l bytes.
fn folded(left: &[u8], l: usize, q2: &[u8]) -> Block
    requires { (l ≤ most_l) × ((l * l * l ≤ length left.now) × (l ≤ length q2.now)) }
    ensures { result ≡ block l (folded_from l left.now q2.now) }
{
    let mut out = [0; BYTES];
    for r in 0..l {
        rows::add_columns(&mut out, r * STRIDE, l, q2, 0, 1, l, left, r * l);
    }
    out
}

// q1 and q2 hold the coefficients of Q1 and Q2 in their first l places.
pub fn gathered_block(
    sums: &[u8],
    l: usize,
    index: usize,
    q1: [u8; STRIDE],
    q2: [u8; STRIDE],
) -> Block
    requires { (l ≤ most_l) × ((index + 1) * (l * l) * (l * l) ≤ length sums.now) }
    ensures { result ≡ block l (gathered_from l (coefficients q1) (coefficients q2) sums.now index) }
{
    let mut left = [0u8; POWERS_ROOM];
    rows::add_columns(&mut left, 0, l * l * l, &q1, 0, 1, l, sums, index * l);
    folded(&left, l, &q2)
}
