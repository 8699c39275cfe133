// Products of whole byte tables, added row by row: a table transposed times a table, a table times a table, and a table transposed times the blocks of a stream.
ghost use Rattle.std.specs.Prelude.{◌≡◌, ℕ, ◌+◌, ◌*◌, ◌<◌, ◌≤◌, length, get_or};
ghost use Rattle.sets.specs.Rooms.{vinegar_room};
ghost use Rattle.rows.specs.PlusRows.{PlusRows};
ghost use Rattle.tables.specs.Gains.{blocks_row};
ghost use Rattle.tables.specs.Columns.{Column};
ghost use Rattle.tables.specs.Sums.{HasRows, transposed_gain, times_gain, rows_of, left_gain};

use sets::{FLAT_ROOM, VINEGAR_ROOM};

// The m rows of n bytes from byte `at` on gain count rows of m scalars from byte `place` on, transposed, times the count rows of src.
pub fn add_transposed(
    dst: &mut [u8],
    at: usize,
    n: usize,
    scalars: &[u8],
    place: usize,
    m: usize,
    count: usize,
    src: &[u8],
)
    requires { (at + m * n ≤ length dst.old) × ((place + count * m ≤ length scalars.now) × ((count * n ≤ length src.now) × (0 < count))) }
    ensures { PlusRows dst.old at m n (transposed_gain scalars.now place m count (rows_of n src.now)) dst.new }
{
    for y in 0..m {
        rows::add_columns(dst, at + y * n, n, scalars, place + y, m, count, src, 0);
    }
}

// The m rows of n bytes from byte `at` on gain the m rows of count scalars times the count rows of src.
pub fn add_times(
    dst: &mut [u8],
    at: usize,
    n: usize,
    m: usize,
    scalars: &[u8],
    count: usize,
    src: &[u8],
)
    requires { (at + m * n ≤ length dst.old) × ((m * count ≤ length scalars.now) × (count * n ≤ length src.now)) }
    ensures { PlusRows dst.old at m n (times_gain (rows_of count scalars.now) count (rows_of n src.now)) dst.new }
{
    for y in 0..m {
        rows::add_columns(dst, at + y * n, n, scalars, y * count, 1, count, src, 0);
    }
}

// dst[at + k·stride] becomes src[from + k·step], for each k below count.
fn copy_column(
    dst: &mut [u8],
    at: usize,
    stride: usize,
    src: &[u8],
    from: usize,
    step: usize,
    count: usize,
)
    requires by_index { (k : ℕ) → k < count → (at + k * stride < length dst.old) × (from + k * step < length src.now) }
    requires stride_nonzero { 0 < stride }
    ensures { Column dst.old at stride count (λ k. get_or src.now (from + k * step) 0) dst.new }
{
    for k in 0..count {
        dst[at + k * stride] = src[from + k * step];
    }
}

// The first bytes of dst become the l rows of count blocks of the stream from block number on. The blocks are laid element after element first, and then entry (r, c)
// of all of them is copied at once: the entries of one row of one block are too few to go by.
fn load_blocks(dst: &mut [u8], l: usize, stream: &[u8], number: usize, count: usize)
    requires l_in_bounds { (l * (count * l) ≤ length dst.old) × (((number + count) * (l * l) ≤ 2 * length stream.now) × (0 < l)) }
    requires l_bound { (l * (count * l) ≤ vinegar_room) × (0 < count) }
    ensures { HasRows l (count * l) (blocks_row l stream.now number) dst.new }
{
    let mut flat = [0u8; FLAT_ROOM];
    let place = streams::lay_blocks(&mut flat, stream, number, l, count);
    let n = count * l;
    let size = l * l;
    for e in 0..size {
        // entry (r, c), where e = r·l + c
        copy_column(dst, e / l * n + e % l, l, &flat, place + e, size, count);
    }
}

// The m rows of count·l bytes from byte `at` on gain, for each j below v, block row j of the table x, in rows of m bytes, transposed,
// times block row j of the v by count blocks of the stream from block number on.
pub fn add_left(
    dst: &mut [u8],
    at: usize,
    l: usize,
    v: usize,
    x: &[u8],
    m: usize,
    stream: &[u8],
    number: usize,
    count: usize,
)
    requires l_in_bounds { (at + m * (count * l) ≤ length dst.old) × ((v * l * m ≤ length x.now) × ((number + v * count) * (l * l) ≤ 2 * length stream.now)) }
    requires l_bound { (l * (count * l) ≤ vinegar_room) × ((0 < l) × (0 < count)) }
    ensures { PlusRows dst.old at m (count * l) (left_gain l v x.now m stream.now number count) dst.new }
{
    let n = count * l;
    let mut buffer = [0u8; VINEGAR_ROOM];
    for j in 0..v {
        load_blocks(&mut buffer, l, stream, number + j * count, count);
        add_transposed(dst, at, n, x, j * (l * m), m, l, &buffer);
    }
}
