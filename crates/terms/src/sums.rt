// A table of power sums grows by one j: l·l rows of l·l bytes for each matrix index, row x·l + r and column y·l + c for entry (r, c) of powers x and y.
ghost use Rattle.std.specs.Prelude.{◌+◌, ◌*◌, ◌≤◌, length};
ghost use Rattle.rows.specs.PlusRows.{PlusRows};
ghost use Rattle.terms.specs.Terms.{power_gain};

// The l·l rows of sums from byte `at` on gain block row j of the power table w, transposed, times the l rows of y.
pub fn add_power_sum(sums: &mut [u8], at: usize, l: usize, w: &[u8], j: usize, y: &[u8])
    requires { (at + l * l * (l * l) ≤ length sums.old) × (((j + 1) * l * (l * l) ≤ length w.now) × (l * (l * l) ≤ length y.now)) }
    ensures { PlusRows sums.old at (l * l) (l * l) (power_gain l w.now j y.now) sums.new }
{
    let n = l * l;
    let first = j * l * n;
    for row in 0..n {
        rows::add_columns(sums, at + row * n, n, w, first + row, n, l, y, 0);
    }
}
