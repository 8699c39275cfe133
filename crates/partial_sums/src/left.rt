// The table of the left sums: for each matrix index i', power a of S and oil index k, the sum over j of (S^a·X_j)ᵗ·F12(i', j, k).
// Rows of o·l bytes, block row i'·l + a, block column k. First with P12; then those with P11, in a table of their own, times T12.
ghost use Rattle.std.specs.Prelude.{◌≡◌, ℕ, ◌+◌, ◌*◌, ◌<◌, ◌≤◌, length};
ghost use Rattle.rows.specs.PlusRows.{PlusRows};
ghost use Rattle.sets.specs.Numbers.{numbers};
ghost use Rattle.sets.specs.Sets.{public_bytes};
ghost use Rattle.partial_sums.specs.LeftRight.{left_row};
ghost use Rattle.partial_sums.specs.Filled.{LeftHolds};

use sets::{AllowedSet, VINEGAR_POWERS_ROOM};

// The rows of one matrix index, from byte `at` on. x holds the powers of S times the vinegar, t holds T12.
#[tactic(auto, using(sets::proofs::Bounds::bounds_of, crate::specs::SumPlaces::sizes))]
fn add_left_index(
    left: &mut [u8],
    at: usize,
    set: AllowedSet,
    i: usize,
    public: &[u8],
    x: &[u8],
    t: &[u8],
)
    requires i_lt_o { (i < set.o) × (at + set.l * set.l * (set.o * set.l) ≤ length left.old) }
    requires public_len { (length public.now ≡ public_bytes (numbers set))
        × ((set.v * set.l * (set.l * set.l) ≤ length x.now)
        × (set.v * set.l * (set.o * set.l) ≤ length t.now)) }
    ensures { PlusRows left.old at (set.l * set.l) (set.o * set.l)
        (left_row (numbers set) public.now x.now t.now i) left.new }
{
    let v = set.v;
    let o = set.o;
    let l = set.l;
    let square = l * l;
    let mut z = [0u8; VINEGAR_POWERS_ROOM];
    let p11 = streams::p11_number(set, i, 0);
    let p12 = streams::p12_number(set, i, 0);
    tables::add_left(&mut z, 0, l, v, x, square, public, p11, v);
    tables::add_left(left, at, l, v, x, square, public, p12, o);
    tables::add_times(left, at, o * l, square, &z, v * l, t);
}

pub fn fill_left(left: &mut [u8], set: AllowedSet, public: &[u8], x: &[u8], t: &[u8])
    requires left_len { set.o * (set.l * set.l) * (set.o * set.l) ≤ length left.old }
    requires public_len { (length public.now ≡ public_bytes (numbers set))
        × ((set.v * set.l * (set.l * set.l) ≤ length x.now)
        × (set.v * set.l * (set.o * set.l) ≤ length t.now)) }
    ensures { LeftHolds (numbers set) public.now x.now t.now left.old left.new }
{
    let o = set.o;
    let l = set.l;
    rows::clear(left);
    for i in 0..o {
        add_left_index(left, i * (l * l * (o * l)), set, i, public, x, t);
    }
}
