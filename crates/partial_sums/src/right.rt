// The table of the right sums: for each matrix index i', oil index k and power b of S, the sum over j of F21(i', k, j)·(S^b·X_j); rows of l·l bytes,
// block row i'·o + k, block column b. And the table of the vinegar's power sums, for which the same sums with P11 serve.
ghost use Rattle.std.specs.Prelude.{◌≡◌, List, ℕ, ◌+◌, ◌*◌, ◌<◌, ◌≤◌, length};
ghost use Rattle.rows.specs.PlusRows.{PlusRows};
ghost use Rattle.words.specs.Multiples.{Multiples};
ghost use Rattle.sets.specs.Numbers.{numbers};
ghost use Rattle.sets.specs.Sets.{public_bytes};
ghost use Rattle.tables.specs.Sums.{HasRows};
ghost use Rattle.partial_sums.specs.LeftRight.{y_row, right_row, sums_row};
ghost use Rattle.partial_sums.specs.Filled.{RightHolds, SumsHold};

use super::products::add_products;
use sets::{AllowedSet, VINEGAR_POWERS_ROOM, VINEGAR_ROWS};

// Room for the eight multiples of each of v·l rows.
const MULTIPLES: usize = VINEGAR_ROWS * 8;

// y becomes the sums with P11 of one matrix index, v·l rows of l·l bytes, and zeros behind them. `multiples` holds the multiples of the rows of x,
// the powers of S times the vinegar.
#[tactic(auto, using(sets::proofs::Bounds::bounds_of, crate::specs::SumPlaces::sizes))]
fn load_products(y: &mut [u8], set: AllowedSet, i: usize, public: &[u8], multiples: &[u64])
    requires i_lt_o { (i < set.o) × (set.v * set.l * (set.l * set.l) ≤ length y.old) }
    requires public_len { (length public.now ≡ public_bytes (numbers set)) × (set.v * set.l * 8 ≤ length multiples.now) }
    ensures { (x : List ℕ) → Multiples (set.l * set.l) (set.v * set.l) x multiples.now
        → HasRows (set.v * set.l) (set.l * set.l) (y_row (numbers set) public.now x i) y.new }
{
    let v = set.v;
    let l = set.l;
    rows::clear(y);
    let p11 = streams::p11_number(set, i, 0);
    add_products(y, 0, l * l, public, p11, l, v, v, multiples);
}

// The rows of one matrix index, from byte `at` on. y holds its sums with P11, t holds T12.
#[tactic(auto, using(sets::proofs::Bounds::bounds_of, crate::specs::SumPlaces::sizes))]
fn add_right_index(
    right: &mut [u8],
    at: usize,
    set: AllowedSet,
    i: usize,
    public: &[u8],
    multiples: &[u64],
    t: &[u8],
    y: &[u8],
)
    requires i_lt_o { (i < set.o) × (at + set.o * set.l * (set.l * set.l) ≤ length right.old) }
    requires public_len { (length public.now ≡ public_bytes (numbers set)) × ((set.v * set.l * 8 ≤ length multiples.now) × (set.v * set.l * (set.o * set.l) ≤ length t.now)) }
    requires l_in_bounds { set.v * set.l * (set.l * set.l) ≤ length y.now }
    ensures { (x : List ℕ) → Multiples (set.l * set.l) (set.v * set.l) x multiples.now
        → HasRows (set.v * set.l) (set.l * set.l) (y_row (numbers set) public.now x i) y.now
        → PlusRows right.old at (set.o * set.l) (set.l * set.l) (right_row (numbers set) public.now x t.now i) right.new }
{
    let v = set.v;
    let o = set.o;
    let l = set.l;
    let p21 = streams::p21_number(set, i, 0);
    add_products(right, at, l * l, public, p21, l, o, v, multiples);
    tables::add_transposed(right, at, l * l, t, 0, o * l, v * l, y);
}

// Both tables, by the multiples of the rows of x.
fn fill_by_multiples(
    right: &mut [u8],
    sums: &mut [u8],
    set: AllowedSet,
    public: &[u8],
    x: &[u8],
    t: &[u8],
    multiples: &[u64],
)
    requires right_len { (set.o * (set.o * set.l) * (set.l * set.l) ≤ length right.old) × (set.o * (set.l * set.l) * (set.l * set.l) ≤ length sums.old) }
    requires public_len { (length public.now ≡ public_bytes (numbers set)) × ((set.v * set.l * (set.l * set.l) ≤ length x.now) × (set.v * set.l * (set.o * set.l) ≤ length t.now)) }
    requires l_in_bounds { (set.v * set.l * 8 ≤ length multiples.now) × Multiples (set.l * set.l) (set.v * set.l) x.now multiples.now }
    ensures right_holds { RightHolds (numbers set) public.now x.now t.now right.old right.new }
    ensures sums_hold { SumsHold (numbers set) public.now x.now sums.old sums.new }
{
    let o = set.o;
    let l = set.l;
    rows::clear(right);
    rows::clear(sums);
    let mut y = [0u8; VINEGAR_POWERS_ROOM];
    for i in 0..o {
        load_products(&mut y, set, i, public, multiples);
        tables::add_transposed(
            sums,
            i * (l * l * (l * l)),
            l * l,
            x,
            0,
            l * l,
            set.v * l,
            &y,
        );
        add_right_index(
            right,
            i * (o * l * (l * l)),
            set,
            i,
            public,
            multiples,
            t,
            &y,
        );
    }
}

pub fn fill_right(
    right: &mut [u8],
    sums: &mut [u8],
    set: AllowedSet,
    public: &[u8],
    x: &[u8],
    t: &[u8],
)
    requires right_len { (set.o * (set.o * set.l) * (set.l * set.l) ≤ length right.old) × (set.o * (set.l * set.l) * (set.l * set.l) ≤ length sums.old) }
    requires public_len { (length public.now ≡ public_bytes (numbers set)) × ((set.v * set.l * (set.l * set.l) ≤ length x.now) × (set.v * set.l * (set.o * set.l) ≤ length t.now)) }
    ensures right_holds { RightHolds (numbers set) public.now x.now t.now right.old right.new }
    ensures sums_hold { SumsHold (numbers set) public.now x.now sums.old sums.new }
{
    let l = set.l;
    let mut multiples = [0u64; MULTIPLES];
    words::multiply(&mut multiples, x, l * l, set.v * l);
    fill_by_multiples(right, sums, set, public, x, t, &multiples);
}
