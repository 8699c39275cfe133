// Tables of bytes that key generation, the verdict and signing share: the powers of S, the private matrix T12, the powers of S times a list of matrices,
// rows of products of a stream's blocks with such a table, and products of whole tables. A table with rows of w bytes holds block (j, k) at rows j·l .. and columns k·l .. .
#![tactic(auto)]

mod powers;
mod private;
mod products;
mod sums;

ghost use Rattle.std.specs.Prelude.{◌≡◌, ◌+◌, ◌*◌, ◌^◌, ◌<◌, ◌≤◌, length};
ghost use Rattle.rows.specs.Plus.{Plus};
ghost use Rattle.tables.specs.Gains.{row_start, blocks_row};
ghost use Rattle.tables.specs.Unpacked.{Unpacked};

pub use powers::{power_table, powers_of_s};
pub use private::private_table;
pub use products::add_blocks;
pub use sums::{add_left, add_times, add_transposed};

// The number of the first element of row r of a stream's block.
fn row_start(l: usize, number: usize, r: usize) -> usize
    requires { (r < l) × ((number + 1) * (l * l) < 2 ^ 64) }
    ensures { result ≡ row_start l number r }
{
    number * (l * l) + r * l
}

// dst[at..] gains row r of count blocks of a packed stream from block number on, side by side.
pub fn add_block_row(
    dst: &mut [u8],
    at: usize,
    stream: &[u8],
    number: usize,
    l: usize,
    r: usize,
    count: usize,
)
    requires { (at + count * l ≤ length dst.old) × (r < l) × ((number + count) * (l * l) ≤ 2 * length stream.now) }
    ensures { Plus dst.old at (count * l) (blocks_row l stream.now number r) dst.new }
{
    for k in 0..count {
        let from = row_start(l, number + k, r);
        rows::add_elements(dst, at + k * l, stream, from, l);
    }
}

// dst becomes elements 0, .. , n - 1 of a packed stream, one to a byte, and zeros behind them.
pub fn unpack_all(dst: &mut [u8], stream: &[u8], n: usize)
    requires { (n ≤ length dst.old) × (n ≤ 2 * length stream.now) }
    ensures { Unpacked stream.now n dst.old dst.new }
{
    rows::clear(dst);
    rows::add_elements(dst, 0, stream, 0, n);
}
