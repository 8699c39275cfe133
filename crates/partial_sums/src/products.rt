// The blocks of a stream times a table, added row by row.
ghost use Rattle.std.specs.Prelude.{◌≡◌, List, ℕ, ◌+◌, ◌*◌, ◌<◌, ◌≤◌, length};
ghost use Rattle.sets.specs.Rooms.{vinegar_room};
ghost use Rattle.rows.specs.PlusRows.{PlusRows};
ghost use Rattle.words.specs.Multiples.{Multiples};
ghost use Rattle.sets.specs.Sets.{most_l};
ghost use Rattle.partial_sums.specs.Products.{products_row};

// The a·l rows of n bytes from byte `at` on gain the a by count blocks of the stream from block number on, times the count block rows of a table in rows of n bytes.
// `multiples` holds the multiples of that table's rows (crate words).
pub fn add_products(
    dst: &mut [u8],
    at: usize,
    n: usize,
    stream: &[u8],
    number: usize,
    l: usize,
    a: usize,
    count: usize,
    multiples: &[u64],
)
    requires n_in_bounds { (at + a * l * n ≤ length dst.old) × (((number + a * count) * (l * l) ≤ 2 * length stream.now) × (count * l * 8 ≤ length multiples.now)) }
    requires l_bound { (count * (l * l) ≤ vinegar_room) × ((0 < count) × ((0 < l) × (l ≤ most_l))) }
    ensures { (src : List ℕ) → Multiples n (count * l) src multiples.now
        → PlusRows dst.old at (a * l) n (products_row l stream.now number count src n) dst.new }
{
    for y in 0..a {
        tables::add_blocks(
            dst,
            at + y * (l * n),
            n,
            stream,
            number + y * count,
            l,
            count,
            multiples,
            0,
        );
    }
}
