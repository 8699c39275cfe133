// Block rows of a stream times a table in short rows, by the table's multiples (crate words): all l rows of the product at once, each element of the stream read once.
ghost use Rattle.std.specs.Prelude.{List, ℕ, ◌+◌, ◌*◌, ◌<◌, ◌≤◌, length};
ghost use Rattle.sets.specs.Rooms.{vinegar_room};
ghost use Rattle.rows.specs.PlusRows.{PlusRows};
ghost use Rattle.words.specs.Multiples.{Multiples};
ghost use Rattle.sets.specs.Sets.{most_l};
ghost use Rattle.tables.specs.Gains.{product_row};

use sets::FLAT_ROOM;

// The l rows of n bytes from byte `at` on gain the sum over k < count of block number + k of the stream times block row first + k of a table in rows of n bytes.
// `multiples` holds the multiples of that table's rows.
pub fn add_blocks(
    dst: &mut [u8],
    at: usize,
    n: usize,
    stream: &[u8],
    number: usize,
    l: usize,
    count: usize,
    multiples: &[u64],
    first: usize,
)
    requires n_in_bounds { (at + l * n ≤ length dst.old) × ((number + count) * (l * l) ≤ 2 * length stream.now) }
    requires l_in_bounds { ((first + count) * l * 8 ≤ length multiples.now) × ((count * (l * l) ≤ vinegar_room) × ((0 < count) × ((0 < l) × (l ≤ most_l)))) }
    ensures { (src : List ℕ) → Multiples n ((first + count) * l) src multiples.now
        → PlusRows dst.old at l n (λ r. product_row l stream.now number r count src n first) dst.new }
{
    let mut flat = [0u8; FLAT_ROOM];
    let place = streams::lay_blocks(&mut flat, stream, number, l, count);
    for r in 0..l {
        let w = words::product_word(multiples, first * l, l, &flat, place + r * l, count);
        words::add_word(dst, at + r * n, n, w);
    }
}
