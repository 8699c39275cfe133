// Writing the signature: the solution of the system is read, U is the vinegar plus T12 times the oil and then the oil, and its elements are packed before the salt.
ghost use Rattle.std.specs.Prelude.{◌≡◌, ◌++◌, ℕ, ◌+◌, ◌*◌, ◌<◌, ◌≤◌, length, get_or};
ghost use Rattle.ground.specs.Fill.{tab};
ghost use Rattle.ground.specs.Segment.{Segment};
ghost use Rattle.packing.specs.Packing.{packed, packed_bytes};
ghost use Rattle.sets.specs.Numbers.{numbers};
ghost use Rattle.sets.specs.Sets.{private_bytes, vinegar_bytes, unknowns, signature_count, most_row};
ghost use Rattle.scheme.specs.Oil.{oil_from};
ghost use Rattle.rows.specs.PlusRows.{PlusRows};
ghost use Rattle.linear.specs.System.{at};
ghost use Rattle.signing.specs.Signs.{signature_with};
ghost use Rattle.signing.specs.Writing.{oil_row, oil_of, SolutionList};

use sets::{AllowedSet, LIST_ROOM, MOST_ROW, POWERS_ROOM, PRIVATE_ROOM};

// Room for the elements of a signature and a spare half.
const ELEMENTS_ROOM: usize = LIST_ROOM + 1;

// The oil becomes the solution that elimination left in column n of the area.
fn read_solution(oil: &mut [u8], g: &[u8], n: usize)
    requires { (n ≤ most_row) × ((n ≤ length oil.old) × (n * (n + 1) ≤ length g.now)) }
    ensures { Segment oil.old 0 n (λ e. at g.now n e n) oil.new }
{
    for e in 0..n {
        oil[e] = g[e * (n + 1) + n];
    }
}

// The v·l rows of u, of l bytes each, gain T12 times the oil.
fn add_oil(u: &mut [u8], set: AllowedSet, t: &[u8], oil: &[u8])
    requires l_in_bounds { (set.v * set.l * set.l ≤ length u.old) × ((set.v * set.l * (set.o * set.l) ≤ length t.now) × (set.o * set.l * set.l ≤ length oil.now)) }
    ensures { PlusRows u.old 0 (set.v * set.l) set.l (oil_row set.l (set.o * set.l) t.now oil.now) u.new }
{
    let l = set.l;
    let w = set.o * l;
    let count = set.v * l;
    for y in 0..count {
        rows::add_columns(u, y * l, l, t, y * w, 1, w, oil, 0);
    }
}

// u becomes the entries of U, an element to a byte, and zeros behind them.
fn solution_list(u: &mut [u8], set: AllowedSet, private: &[u8], vinegar: &[u8], oil: &[u8])
    requires private_len { (length private.now ≡ private_bytes (numbers set)) × (length vinegar.now ≡ vinegar_bytes (numbers set)) }
    requires set_in_bounds { (signature_count (numbers set) ≤ length u.old) × (unknowns (numbers set) ≤ length oil.now) }
    requires by_index { (e : ℕ) → e < unknowns (numbers set) → get_or oil.now e 0 < 16 }
    ensures { SolutionList (numbers set) private.now vinegar.now (oil_of set.l oil.now) u.new }
{
    let mut sp = [0u8; POWERS_ROOM];
    tables::powers_of_s(&mut sp, set.l);
    let mut t = [0u8; PRIVATE_ROOM];
    tables::private_table(&mut t, set, private, &sp);
    let vinegar_elements = sets::vinegar_count(set);
    let oil_elements = sets::unknowns(set);
    tables::unpack_all(u, vinegar, vinegar_elements);
    add_oil(u, set, &t, oil);
    rows::add_scaled(u, vinegar_elements, oil, 0, oil_elements, 1);
}

// The whole output: the elements of u packed, a zero in a spare half, then the salt.
fn write_output(output: &mut [u8], set: AllowedSet, u: &[u8], salt: &[u8])
    requires output_len { (length output.old ≡ packed_bytes (signature_count (numbers set)) + length salt.now) × (signature_count (numbers set) < length u.now) }
    requires by_index { (e : ℕ) → get_or u.now e 0 < 16 }
    requires by_index_2 { (e : ℕ) → signature_count (numbers set) ≤ e → get_or u.now e 0 ≡ 0 }
    ensures { output.new ≡ packed (tab (signature_count (numbers set)) (λ e. get_or u.now e 0)) ++ salt.now }
{
    let count = sets::signature_count(set);
    let bytes = packing::packed_bytes(count);
    rows::put_row(output, 0, u, 0, 2 * bytes);
    output[bytes..].copy_from_slice(salt);
}

// The output becomes the signature whose oil is the solution in column N of the work area.
pub fn emit(
    output: &mut [u8],
    set: AllowedSet,
    private: &[u8],
    vinegar: &[u8],
    salt: &[u8],
    work: &[u8],
)
    requires private_len { (length private.now ≡ private_bytes (numbers set)) × (length vinegar.now ≡ vinegar_bytes (numbers set)) }
    requires output_len { (length output.old ≡ packed_bytes (signature_count (numbers set)) + length salt.now) × (unknowns (numbers set) * (unknowns (numbers set) + 1) ≤ length work.now) }
    requires by_index { (e : ℕ) → e < unknowns (numbers set) → at work.now (unknowns (numbers set)) e (unknowns (numbers set)) < 16 }
    ensures { output.new ≡ signature_with (numbers set) private.now vinegar.now salt.now
        (oil_from set.l (λ e. at work.now (unknowns (numbers set)) e (unknowns (numbers set)))) }
{
    let n = sets::unknowns(set);
    let mut oil = [0u8; MOST_ROW];
    read_solution(&mut oil, work, n);
    let mut u = [0u8; ELEMENTS_ROOM];
    solution_list(&mut u, set, private, vinegar, &oil);
    write_output(output, set, &u, salt);
}
