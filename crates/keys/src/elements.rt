// The tables of P22 written into the key, element by element.
ghost use Rattle.std.specs.Prelude.{◌≡◌, ℕ, ◌*◌, ◌<◌, ◌≤◌, length, get_or};
ghost use Rattle.packing.specs.Written.{Written};
ghost use Rattle.sets.specs.Numbers.{numbers};
ghost use Rattle.sets.specs.Sets.{public_bytes, key_bytes};
ghost use Rattle.keys.specs.Elements.{row_count, table_element, WritesKey, Spare};

use crate::parts::{f21_table, p22_table};
use sets::AllowedSet;

// The elements of equation i in the key become the blocks of the table k, each row by row.
fn put_p22(key: &mut [u8], set: AllowedSet, k: &[u8], i: usize)
    requires i_lt_o { (i < set.o) × (length key.old ≡ key_bytes (numbers set)) × (set.o * set.l * (set.o * set.l) ≤ length k.now) }
    requires by_index { (e : ℕ) → get_or k.now e 0 < 16 }
    ensures { Written key.old (i * row_count set.o set.l * set.l) (row_count set.o set.l * set.l)
        (table_element set.o set.l k.now) key.new }
{
    let l = set.l;
    let o = set.o;
    let count = o * o * l;
    for q in 0..count {
        // row r of block (j, b), where q = (j·o + b)·l + r
        let r = q % l;
        let b = q / l % o;
        let j = q / l / o;
        rows::put_row(
            key,
            (i * count + q) * l,
            k,
            (j * l + r) * (o * l) + b * l,
            l,
        );
    }
}

// Writes every element of the key, from the table t of T12. f and k are room for the tables of F21 and P22.
pub fn write_elements(
    key: &mut [u8],
    set: AllowedSet,
    public: &[u8],
    t: &[u8],
    f: &mut [u8],
    k: &mut [u8],
)
    requires public_len { (length public.now ≡ public_bytes (numbers set)) × (length key.old ≡ key_bytes (numbers set)) × (set.v * set.l * (set.o * set.l) ≤ length t.now) }
    requires l_in_bounds { (set.o * set.l * (set.v * set.l) ≤ length f.old) × (set.o * set.l * (set.o * set.l) ≤ length k.old) }
    ensures { WritesKey (numbers set) public.now t.now key.old key.new }
{
    for i in 0..set.o {
        f21_table(f, set, public, t, i);
        p22_table(k, set, public, t, f, i);
        put_p22(key, set, k, i);
    }
}

// Zero in the spare half, where the count of elements is odd.
pub fn clear_spare(key: &mut [u8], set: AllowedSet)
    requires key_len { length key.old ≡ key_bytes (numbers set) }
    ensures { Spare (numbers set) key.old key.new }
{
    let count = sets::key_count(set);
    if count % 2 == 1 {
        packing::put(key, count, 0);
    }
}
