// F21 = P21 + T12ᵗ·P11 and P22 = T12ᵗ·P12 + F21·T12 of one matrix, as byte tables. This P22 is page 01's T12ᵗ·F12 + P21·T12 (`key-by-f21` of
// specs/Parts.antt): so the products with P11, which are most of the work, are taken in rows of v·l bytes, not in the short rows of o·l bytes.
ghost use Rattle.std.specs.Prelude.{◌≡◌, ℕ, ◌*◌, ◌<◌, ◌≤◌, length};
ghost use Rattle.rows.specs.PlusRows.{PlusRows};
ghost use Rattle.sets.specs.Numbers.{numbers};
ghost use Rattle.sets.specs.Sets.{public_bytes};
ghost use Rattle.tables.specs.Table.{Filled};
ghost use Rattle.keys.specs.Parts.{blocks, wide_blocks, p21_row, f21_of, p22_of};

use sets::AllowedSet;

// The o·l rows of f, of v·l bytes, gain P21 of matrix i: row y that of row y % l of block row y / l.
fn add_p21(f: &mut [u8], set: AllowedSet, public: &[u8], i: usize)
    requires i_lt_o { (i < set.o) × (length public.now ≡ public_bytes (numbers set)) × (set.o * set.l * (set.v * set.l) ≤ length f.old) }
    ensures { PlusRows f.old 0 (set.o * set.l) (set.v * set.l) (p21_row (numbers set) public.now i) f.new }
{
    let l = set.l;
    let v = set.v;
    let n = v * l;
    let count = set.o * l;
    for y in 0..count {
        let p21 = streams::p21_number(set, i, y / l);
        tables::add_block_row(f, y * n, public, p21, l, y % l, v);
    }
}

// f becomes F21 of matrix i, from the table t of T12, and zeros behind it.
pub fn f21_table(f: &mut [u8], set: AllowedSet, public: &[u8], t: &[u8], i: usize)
    requires i_lt_o { (i < set.o) × (length public.now ≡ public_bytes (numbers set)) }
    requires l_in_bounds { (set.o * set.l * (set.v * set.l) ≤ length f.old) × (set.v * set.l * (set.o * set.l) ≤ length t.now) }
    ensures { Filled set.l (set.v * set.l) set.o set.v
        (f21_of (numbers set) public.now (blocks (numbers set) t.now) i) f.old f.new }
{
    let l = set.l;
    let v = set.v;
    let w = set.o * l;
    let p11 = streams::p11_number(set, i, 0);
    rows::clear(f);
    add_p21(f, set, public, i);
    tables::add_left(f, 0, l, v, t, w, public, p11, v);
}

// k becomes P22 of matrix i, from the tables t of T12 and f of F21, and zeros behind it.
pub fn p22_table(k: &mut [u8], set: AllowedSet, public: &[u8], t: &[u8], f: &[u8], i: usize)
    requires i_lt_o { (i < set.o) × (length public.now ≡ public_bytes (numbers set)) }
    requires l_in_bounds { (set.o * set.l * (set.o * set.l) ≤ length k.old)
        × (set.v * set.l * (set.o * set.l) ≤ length t.now)
        × (set.o * set.l * (set.v * set.l) ≤ length f.now) }
    ensures { Filled set.l (set.o * set.l) set.o set.o
        (p22_of (numbers set) public.now (blocks (numbers set) t.now) (wide_blocks (numbers set) f.now) i) k.old k.new }
{
    let l = set.l;
    let v = set.v;
    let o = set.o;
    let w = o * l;
    let p12 = streams::p12_number(set, i, 0);
    rows::clear(k);
    tables::add_left(k, 0, l, v, t, w, public, p12, o);
    tables::add_times(k, 0, w, w, f, v * l, t);
}
