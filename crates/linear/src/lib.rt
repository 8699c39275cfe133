// Elimination over GF(16), to the identity: the one solution of a system of up to 160 equations, or the answer that some vector that is not zero is sent to zero.
// The system stands in a lent area, a row of n + 1 bytes for each equation, column n the right-hand side. `Eliminated` of specs/System.antt says what is promised.
#![tactic(auto)]

ghost use Rattle.std.specs.Prelude.{◌≡◌, ℕ, ◌+◌, ◌*◌, ◌<◌, ◌≤◌, length};
ghost use Rattle.sets.specs.Sets.{most_row};
ghost use Rattle.ground.specs.Segment.{Segment};
ghost use Rattle.field.specs.Field.{mul};
ghost use Rattle.rows.specs.PlusRows.{PlusRows};
ghost use Rattle.linear.specs.System.{at, Area, Eliminated};
ghost use Rattle.linear.specs.Step.{Reduced, factor as factor_of};
ghost use Rattle.linear.specs.Row.{row_at};
ghost use Rattle.linear.specs.Frame.{Within, Pivot, PivotAt};
ghost use Rattle.linear.specs.Progress.{Progress};

use sets::MOST_ROW;

// A row held apart from the area: up to 160 elements, and the right-hand element.
#[derive(Clone, Copy)]
pub struct Row {
    pub elements: [u8; MOST_ROW],
    pub right: u8,
}

// There is no one solution: some vector that is not zero is sent to zero.
#[derive(Clone, Copy, Debug, PartialEq, Eq)]
pub struct Singular;

// Entry c of row r.
fn entry(g: &[u8], n: usize, r: usize, c: usize) -> u8
    requires { Within g.now n r × (c ≤ n) }
    ensures { result ≡ at g.now n r c }
{
    g[r * (n + 1) + c]
}

// The first row, from row k on, whose entry in column k is not zero.
fn pivot(g: &[u8], n: usize, k: usize) -> Option<usize>
    requires { Area g.now n × (k < n) }
    ensures { Pivot g.now n k result }
{
    (k..n).find(|p| entry(g, n, *p, k) != 0)
}

// Row r times s.
fn load(g: &[u8], n: usize, r: usize, s: u8) -> Row
    requires { Within g.now n r }
    ensures { (c : ℕ) → c ≤ n → row_at result n c ≡ mul s (at g.now n r c) }
{
    let mut elements = [0u8; MOST_ROW];
    rows::add_scaled(&mut elements, 0, g, r * (n + 1), n, s);
    let right = field::mul(s, entry(g, n, r, n));
    Row { elements, right }
}

// The row goes to row r of the area.
fn store(g: &mut [u8], n: usize, r: usize, row: Row)
    requires { Within g.old n r }
    ensures { Segment g.old (r * (n + 1)) (n + 1) (row_at row n) g.new }
{
    let start = r * (n + 1);
    g[start..start + n].copy_from_slice(&row.elements[..n]);
    g[start + n] = row.right;
}

// What row r gains of row k so that its entry in column k is cleared: row k itself gains nothing.
fn factor(g: &[u8], n: usize, k: usize, r: usize) -> u8
    requires { Within g.now n r × (k ≤ n) }
    ensures { result ≡ factor_of k (at g.now n) r }
{
    if r == k { 0 } else { entry(g, n, r, k) }
}

// Every row but row k loses its entry in column k: it gains that entry times the pivot row, which has 1 there.
fn clear_column(g: &mut [u8], n: usize, k: usize, row: Row)
    requires { (n ≤ most_row) × ((n * (n + 1) ≤ length g.old) × (k ≤ n)) }
    ensures { PlusRows g.old 0 n (n + 1) (λ r c. mul (factor_of k (at g.old n) r) (row_at row n c)) g.new }
{
    for r in 0..n {
        let s = factor(g, n, k, r);
        rows::add_scaled(g, r * (n + 1), &row.elements, 0, n, s);
        g[r * (n + 1) + n] ^= field::mul(s, row.right);
    }
}

// Column k becomes the identity's: row p, over its entry there, changes places with row k, and the other rows are cleared.
fn reduce(g: &mut [u8], n: usize, k: usize, p: usize)
    requires { Area g.old n × (Reduced n k (at g.old n) × PivotAt g.old n k p) }
    ensures { Progress g.old n (k + 1) g.new }
{
    let leading = entry(g, n, p, k);
    let scale = field::inverse(leading);
    let old = load(g, n, k, 1);
    let row = load(g, n, p, scale);
    store(g, n, p, old);
    store(g, n, k, row);
    clear_column(g, n, k, row);
}

// Elimination: Ok leaves the solution in column n.
pub fn eliminate(g: &mut [u8], n: usize) -> Result<(), Singular>
    requires { Area g.old n }
    ensures { Eliminated g.old n result g.new }
{
    for k in 0..n {
        let Some(p) = pivot(g, n, k) else {
            return Err(Singular);
        };
        reduce(g, n, k, p);
    }
    Ok(())
}
