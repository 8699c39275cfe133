// The private matrix T12 as a byte table: every l coefficients of the private stream make an element of F16[S] by Algorithm 1.
// A row of it is a sum of multiples of rows of the powers of S.
ghost use Rattle.std.specs.Prelude.{◌≡◌, ℕ, ◌+◌, ◌*◌, ◌<◌, ◌≤◌, length};
ghost use Rattle.rows.specs.Plus.{Plus};
ghost use Rattle.sets.specs.Numbers.{numbers};
ghost use Rattle.sets.specs.Sets.{private_bytes};
ghost use Rattle.scheme.specs.Streams.{T12};
ghost use Rattle.tables.specs.Table.{Filled};
ghost use Rattle.tables.specs.RingRows.{Powers, ring_row, rings_row};

use sets::AllowedSet;

// t[at..at + l] gains row x of the element of F16[S] that a group of the stream gives: the sum over p of its coefficient p times row x of S to the p.
fn private_part(t: &mut [u8], at: usize, stream: &[u8], l: usize, group: usize, sp: &[u8], x: usize)
    requires { (at + l ≤ length t.old) × (x < l) × ((group + 1) * l ≤ 2 * length stream.now) × (l * l * l ≤ length sp.now) }
    ensures { Plus t.old at l (ring_row l stream.now group sp.now x) t.new }
{
    for p in 0..l {
        let scalar = streams::coefficient_at(stream, l, group, p);
        rows::add_scaled(t, at, sp, (p * l + x) * l, l, scalar);
    }
}

// t[at..] gains row x of the elements of count groups of the stream from group first on, side by side.
fn private_row(
    t: &mut [u8],
    at: usize,
    stream: &[u8],
    l: usize,
    first: usize,
    count: usize,
    sp: &[u8],
    x: usize,
)
    requires { (at + count * l ≤ length t.old) × (x < l) × ((first + count) * l ≤ 2 * length stream.now) × (l * l * l ≤ length sp.now) }
    ensures { Plus t.old at (count * l) (rings_row l stream.now first sp.now x) t.new }
{
    for k in 0..count {
        private_part(t, at + k * l, stream, l, first + k, sp, x);
    }
}

// t becomes T12, v by o blocks in rows of o·l bytes, and zeros behind it. sp is the table of the powers of S.
pub fn private_table(t: &mut [u8], set: AllowedSet, private: &[u8], sp: &[u8])
    requires private_len { (length private.now ≡ private_bytes (numbers set)) × (set.v * set.l * (set.o * set.l) ≤ length t.old) × (set.l * set.l * set.l ≤ length sp.now) }
    requires powers { Powers set.l sp.now }
    ensures { Filled set.l (set.o * set.l) set.v set.o (T12 (numbers set) private.now) t.old t.new }
{
    let l = set.l;
    let o = set.o;
    let w = o * l;
    let count = set.v * l;
    rows::clear(t);
    for y in 0..count {
        private_row(t, y * w, private, l, y / l * o, o, sp, y % l);
    }
}
