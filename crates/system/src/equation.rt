// The rows of the system: for each equation the sum over its terms, then the target and the vinegar part in the last column. Each term is read once, and gives both.
// left, right and sums are the tables of fill_left and fill_right, sp is the table of the powers of S.
ghost use Rattle.std.specs.Prelude.{◌≡◌, List, ℕ, ◌+◌, ◌*◌, ◌<◌, ◌≤◌, length};
ghost use Rattle.rows.specs.PlusRows.{PlusRows};
ghost use Rattle.sets.specs.Numbers.{numbers};
ghost use Rattle.sets.specs.Sets.{target_bytes};
ghost use Rattle.matrix.specs.Block.{block_bytes, stride};
ghost use Rattle.streams.specs.TermOf.{AbqLent, TermOf};
ghost use Rattle.system.specs.Equation.{left_term, right_term, target_added, system_row, Built, TableRooms, ProductRooms, Gathered};

use super::blocks::combined;
use super::sides::{add_outer, add_rows, fill_sides};
use matrix::{BYTES, Block, STRIDE};
use sets::{AllowedSet, MOST_L, MOST_O, MOST_ROW};
use streams::Term;

// Room for o blocks.
const SIDES: usize = MOST_O * BYTES;

// Room for o·l·l rows of l·STRIDE bytes.
const PRODUCTS: usize = MOST_ROW * (MOST_L * STRIDE);

// The left and the right products of an equation gain those of one term.
#[tactic(auto, using(sets::proofs::Bounds::bounds_of, partial_sums::specs::SumPlaces::sizes, ground::specs::Place::row_fits))]
fn add_term(
    lefts: &mut [u8],
    rights: &mut [u8],
    set: AllowedSet,
    term: Term,
    left: &[u8],
    right: &[u8],
    sp: &[u8],
)
    requires index_lt_o { (term.index < set.o) × (length term.a ≡ block_bytes) }
    requires product_rooms { ProductRooms (numbers set) (length lefts.old) (length rights.old) }
    requires table_rooms { TableRooms (numbers set) (length left.now) (length right.now) (length sp.now) }
    ensures by_index { (abq : List ℕ) (i alpha : ℕ) → TermOf (numbers set) abq i alpha term → PlusRows lefts.old 0 (set.o * set.l * set.l) (set.l * stride)
        (left_term (numbers set) abq left.now right.now sp.now i alpha) lefts.new }
    ensures by_index_2 { (abq : List ℕ) (i alpha : ℕ) → TermOf (numbers set) abq i alpha term → PlusRows rights.old 0 (set.o * set.l * set.l) (set.l * stride)
        (right_term (numbers set) abq left.now right.now sp.now i alpha) rights.new }
{
    let l = set.l;
    let o = set.o;
    let a = term.a;
    let b = term.b;
    let q1 = term.q1;
    let q2 = term.q2;
    let index = term.index;
    let first = combined(sp, l, l, 0, 0, 1, 0, q1);
    let last = combined(sp, l, l, 0, 0, 1, 0, q2);
    let mut left_sides = [0u8; SIDES];
    fill_sides(
        &mut left_sides,
        l,
        o,
        a,
        last,
        left,
        o * l,
        index * l,
        1,
        0,
        q1,
    );
    let mut right_sides = [0u8; SIDES];
    fill_sides(
        &mut right_sides,
        l,
        o,
        first,
        b,
        right,
        l * l,
        index * o,
        0,
        1,
        q2,
    );
    let bt = matrix::transposed(l, b);
    add_outer(lefts, l, o, &left_sides, &bt);
    add_outer(rights, l, o, &right_sides, &a);
}

// The left and the right products of equation i gain those of all its terms; the answer is the vinegar part, the sum of the terms' values.
fn add_terms(
    lefts: &mut [u8],
    rights: &mut [u8],
    set: AllowedSet,
    abq: &[u8],
    left: &[u8],
    right: &[u8],
    sums: &[u8],
    sp: &[u8],
    i: usize,
) -> Block
    requires i_lt_o { i < set.o }
    requires abq_lent { AbqLent (numbers set) abq.now × (set.o * (set.l * set.l) * (set.l * set.l) ≤ length sums.now) }
    requires product_rooms { ProductRooms (numbers set) (length lefts.old) (length rights.old) }
    requires table_rooms { TableRooms (numbers set) (length left.now) (length right.now) (length sp.now) }
    ensures { Gathered (numbers set) abq.now left.now right.now sums.now sp.now i
        lefts.old rights.old lefts.new rights.new result }
{
    let l = set.l;
    let count = sets::terms(set);
    let mut known = [0; BYTES];
    for alpha in 0..count {
        let term = streams::read_term(set, abq, i, alpha);
        add_term(lefts, rights, set, term, left, right, sp);
        let value = terms::term_block(l, term, sums);
        let more = matrix::plus(l, known, value);
        known = more;
    }
    known
}

// The last byte of each row of equation i, from byte `at` on, gains the vinegar part's entry and the target's.
#[tactic(auto, using(sets::proofs::Bounds::bounds_of, partial_sums::specs::SumPlaces::sizes))]
fn add_target(g: &mut [u8], at: usize, set: AllowedSet, known: Block, target: &[u8], i: usize)
    requires i_lt_o { i < set.o }
    requires l_in_bounds { (at + set.l * set.l * (set.o * set.l * set.l + 1) ≤ length g.old) × (length target.now ≡ target_bytes (numbers set)) }
    ensures { PlusRows g.old at (set.l * set.l) (set.o * set.l * set.l + 1)
        (target_added set.l (set.o * set.l * set.l) (set.l * set.l) known target.now i) g.new }
{
    let l = set.l;
    let n = set.o * l * l;
    let total = l * l;
    for e in 0..total {
        let place = at + e * (n + 1) + n;
        rows::add_scaled(g, place, &known, e / l * STRIDE + e % l, 1, 1);
        rows::add_elements(g, place, target, i * total + e, 1);
    }
}

// The rows of equation i, from byte `at` on, gain the coefficients of the unknowns and, in their last byte, the vinegar part and the target.
fn add_equation(
    g: &mut [u8],
    at: usize,
    set: AllowedSet,
    abq: &[u8],
    target: &[u8],
    left: &[u8],
    right: &[u8],
    sums: &[u8],
    sp: &[u8],
    i: usize,
)
    requires i_lt_o { i < set.o }
    requires abq_lent { AbqLent (numbers set) abq.now × ((length target.now ≡ target_bytes (numbers set)) × (set.o * (set.l * set.l) * (set.l * set.l) ≤ length sums.now)) }
    requires l_in_bounds { at + set.l * set.l * (set.o * set.l * set.l + 1) ≤ length g.old }
    requires table_rooms { TableRooms (numbers set) (length left.now) (length right.now) (length sp.now) }
    ensures { PlusRows g.old at (set.l * set.l) (set.o * set.l * set.l + 1)
        (system_row (numbers set) abq.now target.now left.now right.now sums.now sp.now i) g.new }
{
    let mut lefts = [0u8; PRODUCTS];
    let mut rights = [0u8; PRODUCTS];
    let known = add_terms(&mut lefts, &mut rights, set, abq, left, right, sums, sp, i);
    add_rows(g, at, set.l, set.o, &lefts, &rights);
    add_target(g, at, set, known, target, i);
}

// g becomes the system, o·l·l rows of o·l·l + 1 bytes, and zeros behind it.
pub fn build(
    g: &mut [u8],
    set: AllowedSet,
    abq: &[u8],
    target: &[u8],
    left: &[u8],
    right: &[u8],
    sums: &[u8],
    sp: &[u8],
)
    requires g_len { set.o * (set.l * set.l) * (set.o * set.l * set.l + 1) ≤ length g.old }
    requires abq_lent { AbqLent (numbers set) abq.now × ((length target.now ≡ target_bytes (numbers set)) × (set.o * (set.l * set.l) * (set.l * set.l) ≤ length sums.now)) }
    requires table_rooms { TableRooms (numbers set) (length left.now) (length right.now) (length sp.now) }
    ensures { Built (numbers set) abq.now target.now left.now right.now sums.now sp.now
        g.old g.new }
{
    let o = set.o;
    let l = set.l;
    rows::clear(g);
    for i in 0..o {
        let at = i * (l * l * (o * l * l + 1));
        add_equation(g, at, set, abq, target, left, right, sums, sp, i);
    }
}
