// The tables that the map is made from: the powers of S times the list's matrices, and the power sums of P(i) for every matrix index i.
// The sums of one index stand in l·l rows of l·l bytes: row x·l + r, column y·l + c for entry (r, c) of powers x and y.
ghost use Rattle.std.specs.Prelude.{◌+◌, ◌*◌, ◌<◌, ◌≤◌, ◌≡◌, length};
ghost use Rattle.sets.specs.Numbers.{numbers};
ghost use Rattle.sets.specs.Sets.{public_bytes, key_bytes, variables};
ghost use Rattle.words.specs.Multiples.{Multiples};
ghost use Rattle.tables.specs.Unpacked.{list_of};
ghost use Rattle.public_map.specs.MapSums.{PowersOf, IndexSums, SumsOf};

use super::block_rows::map_rows;
use sets::{AllowedSet, LIST_ROWS, POWERS_ROOM};

// Room for the eight multiples of each of the n·l rows of w.
const MULTIPLES: usize = LIST_ROWS * 8;

// w becomes the powers of S times the list's matrices.
pub fn list_table(w: &mut [u8], set: AllowedSet, list: &[u8])
    requires l_in_bounds { (variables (numbers set) * (set.l * set.l) ≤ length list.now) × (variables (numbers set) * set.l * (set.l * set.l) ≤ length w.old) }
    ensures { PowersOf (numbers set) w.new (list_of set.l list.now) }
{
    let l = set.l;
    let n = set.v + set.o;
    let mut powers = [0u8; POWERS_ROOM];
    tables::powers_of_s(&mut powers, l);
    tables::power_table(w, l, n, list, &powers);
}

// The rows of matrix index i gain its power sums, one j after the other. `multiples` holds the multiples of the rows of w.
fn index_sums(
    sums: &mut [u8],
    set: AllowedSet,
    public: &[u8],
    key: &[u8],
    w: &[u8],
    multiples: &[u64],
    i: usize,
)
    requires i_lt_o { i < set.o }
    requires l_in_bounds { (set.o * (set.l * set.l) * (set.l * set.l) ≤ length sums.old) × (variables (numbers set) * set.l * (set.l * set.l) ≤ length w.now) }
    requires public_len { (length public.now ≡ public_bytes (numbers set)) × (length key.now ≡ key_bytes (numbers set)) }
    requires l_in_bounds_2 { (variables (numbers set) * set.l * 8 ≤ length multiples.now) × Multiples (set.l * set.l) (variables (numbers set) * set.l) w.now multiples.now }
    ensures { IndexSums (numbers set) public.now key.now w.now i sums.old (variables (numbers set)) sums.new }
{
    let l = set.l;
    let n = set.v + set.o;
    let at = i * (l * l) * (l * l);
    let mut y = [0u8; POWERS_ROOM];
    for j in 0..n {
        map_rows(&mut y, set, public, key, multiples, i, j);
        terms::add_power_sum(sums, at, l, w, j, &y);
    }
}

// sums becomes the power sums of every matrix index.
pub fn all_sums(sums: &mut [u8], set: AllowedSet, public: &[u8], key: &[u8], w: &[u8])
    requires l_in_bounds { (set.o * (set.l * set.l) * (set.l * set.l) ≤ length sums.old) × (variables (numbers set) * set.l * (set.l * set.l) ≤ length w.now) }
    requires public_len { (length public.now ≡ public_bytes (numbers set)) × (length key.now ≡ key_bytes (numbers set)) }
    ensures { SumsOf (numbers set) public.now key.now w.now sums.new }
{
    rows::clear(sums);
    let l = set.l;
    let o = set.o;
    let mut multiples = [0u64; MULTIPLES];
    words::multiply(&mut multiples, w, l * l, (set.v + o) * l);
    for i in 0..o {
        index_sums(sums, set, public, key, w, &multiples, i);
    }
}
