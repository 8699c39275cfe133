// The powers of S as a byte table, and the powers of S times the matrices of a list.
ghost use Rattle.std.specs.Prelude.{◌≡◌, ℕ, ◌+◌, ◌*◌, ◌<◌, ◌≤◌, length};
ghost use Rattle.matrix.specs.Block.{stride};
ghost use Rattle.rows.specs.Plus.{Plus};
ghost use Rattle.rows.specs.PlusRows.{PlusRows};
ghost use Rattle.matrix.specs.RingElements.{power_s};
ghost use Rattle.scheme.specs.Regroup.{power_times};
ghost use Rattle.tables.specs.Table.{Filled};
ghost use Rattle.tables.specs.Unpacked.{list_of};
ghost use Rattle.tables.specs.RingRows.{Powers};
ghost use Rattle.tables.specs.PowerRows.{powers_row};

use matrix::STRIDE;

// sp[at..] gains S to the p, in l rows of l bytes.
fn add_power(sp: &mut [u8], at: usize, l: usize, p: usize)
    requires { (l ≤ stride) × (at + l * l ≤ length sp.old) }
    ensures { PlusRows sp.old at l l (power_s l p) sp.new }
{
    let power = matrix::s_power(l, p);
    for r in 0..l {
        rows::add_scaled(sp, at + r * l, &power, r * STRIDE, l, 1);
    }
}

// sp becomes the table of the powers of S: rows of l bytes, block (p, 0) is S to the p for p < l; and zeros behind it.
pub fn powers_of_s(sp: &mut [u8], l: usize)
    requires { (l ≤ stride) × (l * l * l ≤ length sp.old) }
    ensures { Filled l l l 1 (λ p k. power_s l p) sp.old sp.new }
{
    rows::clear(sp);
    for p in 0..l {
        add_power(sp, p * (l * l), l, p);
    }
}

// w[at..at + l·l] gains row x of S to the b times matrix k of the list, for b = 0, .. , l - 1 side by side.
fn power_row(w: &mut [u8], at: usize, l: usize, list: &[u8], k: usize, sp: &[u8], x: usize)
    requires { (at + l * l ≤ length w.old) × (x < l) × ((k + 1) * (l * l) ≤ length list.now) × (l * l * l ≤ length sp.now) }
    ensures { Plus w.old at (l * l) (powers_row l list.now k sp.now x) w.new }
{
    for b in 0..l {
        rows::add_columns(w, at + b * l, l, sp, (b * l + x) * l, 1, l, list, k * l);
    }
}

// w becomes the powers of S times the n matrices of a list: row block k, column block b is S to the b times matrix k; and zeros behind them.
pub fn power_table(w: &mut [u8], l: usize, n: usize, list: &[u8], sp: &[u8])
    requires l_nonzero { (0 < l) × (n * l * (l * l) ≤ length w.old) × (n * (l * l) ≤ length list.now) × (l * l * l ≤ length sp.now) }
    requires powers { Powers l sp.now }
    ensures { Filled l (l * l) n l (λ k b. power_times l b (list_of l list.now k)) w.old w.new }
{
    rows::clear(w);
    let row = l * l;
    let count = n * l;
    for y in 0..count {
        power_row(w, y * row, l, list, y / l, sp, y % l);
    }
}
