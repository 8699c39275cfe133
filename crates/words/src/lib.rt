// Rows of up to sixteen elements as words: element c of a row is nibble c of a word, so that two rows are added by one exclusive or.
// A table of words holds eight multiples of each row of a byte table, those by 0, 1, 2, 3 and by 0, 4, 8, 12: a row times a scalar is the sum of two of them.
// Sums of many short rows, as the verdict and signing have them, cost little then.
#![tactic(auto)]

ghost use Rattle.std.specs.Prelude.{◌≡◌, ℕ, ◌+◌, ◌*◌, ◌<◌, ◌≤◌, length};
ghost use Rattle.rows.specs.Plus.{Plus};
ghost use Rattle.words.specs.Words.{nibble};
ghost use Rattle.words.specs.Multiples.{factor_of, multiple_of, Multiplied};
ghost use Rattle.words.specs.Lookups.{lookups, block_lookups};

// The word of p times row[at..at + n].
fn multiple(row: &[u8], at: usize, n: usize, p: u8) -> u64
    requires { (at + n ≤ length row.now) × (n ≤ 16) }
    ensures { result ≡ multiple_of n row.now at p }
{
    let mut w = 0;
    for c in (0..n).rev() {
        let e = field::mul(p, row[at + c]);
        w = w * 16 + u64::from(e);
    }
    w
}

// What word q of a row's eight is a multiple by: 0, 1, 2, 3, then 0, 4, 8, 12.
// One select: no plainer.
fn factor(q: usize) -> u8
    requires { q < 8 }
    ensures { result ≡ factor_of q }
{
    if q < 4 { q as u8 } else { (4 * (q - 4)) as u8 }
}

// The first 8·count words of the table become the multiples of count rows of n bytes: word 8·x + q is row x times the factor of q.
pub fn multiply(table: &mut [u64], src: &[u8], n: usize, count: usize)
    requires { (count * 8 ≤ length table.old) × ((count * n ≤ length src.now) × (n ≤ 16)) }
    ensures { Multiplied n count src.now table.old table.new }
{
    let total = count * 8;
    for k in 0..total {
        let p = factor(k % 8);
        table[k] = multiple(src, k / 8 * n, n, p);
    }
}

// The sum, over x below count, of row first + x·stride times scalars[place + x·step]: each product is two look-ups.
fn looked_up(
    table: &[u64],
    first: usize,
    stride: usize,
    scalars: &[u8],
    place: usize,
    step: usize,
    count: usize,
) -> u64
    requires { (x : ℕ) → x < count → ((first + x * stride) * 8 + 8 ≤ length table.now) × (place + x * step < length scalars.now) }
    ensures { result ≡ lookups table.now scalars.now first stride place step count }
{
    let mut w = 0;
    for x in 0..count {
        let p = usize::from(scalars[place + x * step]);
        let row = (first + x * stride) * 8;
        w ^= table[row + p % 4] ^ table[row + (4 + p / 4 % 4)];
    }
    w
}

// A row of count l by l matrices that stand one after the other among the scalars, the first of them from `place` on, times the l·count rows of the table from `first` on.
pub fn product_word(
    table: &[u64],
    first: usize,
    l: usize,
    scalars: &[u8],
    place: usize,
    count: usize,
) -> u64
    requires { ((first + count * l) * 8 ≤ length table.now) × ((place + count * (l * l) ≤ length scalars.now) × (0 < count)) }
    ensures { result ≡ block_lookups table.now scalars.now first l place count }
{
    let mut w = 0;
    for x in 0..l {
        w ^= looked_up(table, first + x, l, scalars, place + x, l * l, count);
    }
    w
}

// dst[at..at + n] gains the first n elements of a word.
pub fn add_word(dst: &mut [u8], at: usize, n: usize, w: u64)
    requires { at + n ≤ length dst.old }
    ensures { Plus dst.old at n (nibble w) dst.new }
{
    let mut rest = w;
    for c in 0..n {
        dst[at + c] ^= (rest % 16) as u8;
        rest = rest / 16;
    }
}
