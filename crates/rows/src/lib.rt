// Byte rows, an element to a byte: a part of a row gains a scalar times a row, elements of a packed stream, or a sum of such terms.
// Key generation, the verdict, signing and elimination do their work by these. `Plus` of specs/Plus.antt says what a part gains.
#![tactic(auto)]

ghost use Rattle.std.specs.Prelude.{◌≡◌, ℕ, ◌+◌, ◌*◌, ◌<◌, ◌≤◌, length, get_or};
ghost use Rattle.field.specs.Field.{mul};
ghost use Rattle.packing.specs.Packing.{element};
ghost use Rattle.packing.specs.Written.{Written};
ghost use Rattle.rows.specs.Plus.{Plus};
ghost use Rattle.rows.specs.Combine.{combination};
ghost use Rattle.rows.specs.Zero.{zeros};

// dst[at..at + n] gains s times src[from..from + n]: the one hot leaf. The compiler makes vectors of the loop.
pub fn add_scaled(dst: &mut [u8], at: usize, src: &[u8], from: usize, n: usize, s: u8)
    requires { (at + n ≤ length dst.old) × (from + n ≤ length src.now) }
    ensures { Plus dst.old at n (λ c. mul s (get_or src.now (from + c) 0)) dst.new }
{
    let s1 = s % 16;
    let s2 = field::twice(s1);
    let s4 = field::twice(s2);
    let s8 = field::twice(s4);
    for i in 0..n {
        let b = src[from + i];
        dst[at + i] ^= field::chosen(s1, s2, s4, s8, b);
    }
}

// dst[at..at + n] gains the elements from, .. , from + n - 1 of a packed stream.
pub fn add_elements(dst: &mut [u8], at: usize, stream: &[u8], from: usize, n: usize)
    requires { (at + n ≤ length dst.old) × (from + n ≤ 2 * length stream.now) }
    ensures { Plus dst.old at n (λ c. element stream.now (from + c)) dst.new }
{
    for c in 0..n {
        dst[at + c] ^= packing::element(stream, from + c);
    }
}

// dst[at..at + n] gains the sum, over x below count, of scalars[place + x * stride] times row first + x of src, in rows of n bytes:
// the scalars are a column of a byte table.
pub fn add_columns(
    dst: &mut [u8],
    at: usize,
    n: usize,
    scalars: &[u8],
    place: usize,
    stride: usize,
    count: usize,
    src: &[u8],
    first: usize,
)
    requires n_in_bounds { (at + n ≤ length dst.old) × ((first + count) * n ≤ length src.now) }
    requires by_index { (x : ℕ) → x < count → place + x * stride < length scalars.now }
    ensures { Plus dst.old at n
        (combination (λ x. get_or scalars.now (place + x * stride) 0) src.now n first count)
        dst.new }
{
    let mut from = first * n;
    for x in 0..count {
        let scalar = scalars[place + x * stride];
        add_scaled(dst, at, src, from, n, scalar);
        from += n;
    }
}

// Elements from, .. , from + n - 1 of the packed bytes become row[at..at + n]; every other element stays.
pub fn put_row(bytes: &mut [u8], from: usize, row: &[u8], at: usize, n: usize)
    requires n_bound { (from + n ≤ 2 * length bytes.old) × (at + n ≤ length row.now) }
    requires by_index { (k : ℕ) → k < n → get_or row.now (at + k) 0 < 16 }
    ensures { Written bytes.old from n (λ c. get_or row.now (at + c) 0) bytes.new }
{
    for e in 0..n {
        packing::put(bytes, from + e, row[at + e]);
    }
}

// Every byte becomes 0.
pub fn clear(s: &mut [u8])
    ensures { s.new ≡ zeros (length s.old) }
{
    s.fill(0);
}
