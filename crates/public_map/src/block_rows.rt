// A block row of P(i) times a table w of n block rows: for each block column b of w, the sum over k < n of P(i, j, k) times block (k, b). All of it in l rows of l·l bytes,
// by the multiples of the rows of w (crate words).
ghost use Rattle.std.specs.Prelude.{ℕ, ◌+◌, ◌*◌, ◌<◌, ◌≤◌, List, length, ◌≡◌};
ghost use Rattle.rows.specs.PlusRows.{PlusRows};
ghost use Rattle.words.specs.Multiples.{Multiples};
ghost use Rattle.sets.specs.Numbers.{numbers};
ghost use Rattle.sets.specs.Sets.{public_bytes, key_bytes, variables};
ghost use Rattle.tables.specs.Table.{Holds};
ghost use Rattle.public_map.specs.MapRows.{split_row, map_sum};

use sets::AllowedSet;

// The l rows of y gain v blocks of one stream times the first v block rows of w, and o blocks of another times the o block rows behind them.
fn add_rows(
    y: &mut [u8],
    set: AllowedSet,
    left: &[u8],
    first: usize,
    right: &[u8],
    second: usize,
    multiples: &[u64],
)
    requires l_in_bounds { (set.l * (set.l * set.l) ≤ length y.old) × (variables (numbers set) * set.l * 8 ≤ length multiples.now) }
    requires l_bound { ((first + set.v) * (set.l * set.l) ≤ 2 * length left.now) × ((second + set.o) * (set.l * set.l) ≤ 2 * length right.now) }
    ensures { (w : List ℕ) → Multiples (set.l * set.l) (variables (numbers set) * set.l) w multiples.now
        → PlusRows y.old 0 set.l (set.l * set.l) (split_row (numbers set) left.now first right.now second w) y.new }
{
    let l = set.l;
    let v = set.v;
    let n = l * l;
    tables::add_blocks(y, 0, n, left, first, l, v, multiples, 0);
    tables::add_blocks(y, 0, n, right, second, l, set.o, multiples, v);
}

// Vinegar row j: P11 with the vinegar matrices, P12 with the oil matrices.
fn vinegar_rows(
    y: &mut [u8],
    set: AllowedSet,
    public: &[u8],
    key: &[u8],
    multiples: &[u64],
    i: usize,
    j: usize,
)
    requires i_lt_o { (i < set.o) × (j < set.v) }
    requires l_in_bounds { (set.l * (set.l * set.l) ≤ length y.old) × (variables (numbers set) * set.l * 8 ≤ length multiples.now) }
    requires public_len { (length public.now ≡ public_bytes (numbers set)) × (length key.now ≡ key_bytes (numbers set)) }
    ensures { (w : List ℕ) → Multiples (set.l * set.l) (variables (numbers set) * set.l) w multiples.now
        → Holds set.l (set.l * set.l) 1 set.l y.new (λ z b. map_sum (numbers set) public.now key.now w i j b) }
{
    rows::clear(y);
    let first = streams::p11_number(set, i, j);
    let second = streams::p12_number(set, i, j);
    add_rows(y, set, public, first, public, second, multiples);
}

// Oil row k: P21 with the vinegar matrices, P22 of the key with the oil matrices.
fn oil_rows(
    y: &mut [u8],
    set: AllowedSet,
    public: &[u8],
    key: &[u8],
    multiples: &[u64],
    i: usize,
    k: usize,
)
    requires i_lt_o { (i < set.o) × (k < set.o) }
    requires l_in_bounds { (set.l * (set.l * set.l) ≤ length y.old) × (variables (numbers set) * set.l * 8 ≤ length multiples.now) }
    requires public_len { (length public.now ≡ public_bytes (numbers set)) × (length key.now ≡ key_bytes (numbers set)) }
    ensures { (w : List ℕ) → Multiples (set.l * set.l) (variables (numbers set) * set.l) w multiples.now
        → Holds set.l (set.l * set.l) 1 set.l y.new (λ z b. map_sum (numbers set) public.now key.now w i (set.v + k) b) }
{
    rows::clear(y);
    let first = streams::p21_number(set, i, k);
    let second = streams::p22_number(set, i, k);
    add_rows(y, set, public, first, key, second, multiples);
}

// y becomes block row j of P(i) times w.
pub fn map_rows(
    y: &mut [u8],
    set: AllowedSet,
    public: &[u8],
    key: &[u8],
    multiples: &[u64],
    i: usize,
    j: usize,
)
    requires i_lt_o { (i < set.o) × (j < variables (numbers set)) }
    requires l_in_bounds { (set.l * (set.l * set.l) ≤ length y.old) × (variables (numbers set) * set.l * 8 ≤ length multiples.now) }
    requires public_len { (length public.now ≡ public_bytes (numbers set)) × (length key.now ≡ key_bytes (numbers set)) }
    ensures { (w : List ℕ) → Multiples (set.l * set.l) (variables (numbers set) * set.l) w multiples.now
        → Holds set.l (set.l * set.l) 1 set.l y.new (λ z b. map_sum (numbers set) public.now key.now w i j b) }
{
    let v = set.v;
    if j < v {
        vinegar_rows(y, set, public, key, multiples, i, j);
        return;
    }
    oil_rows(y, set, public, key, multiples, i, j - v);
}
