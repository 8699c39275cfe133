// The linear system, built in the work area and eliminated: what it finds is the one oil choice that solves, or that there is no such one.
ghost use Rattle.std.specs.Prelude.{◌≡◌, length, ◌*◌, ◌≤◌};
ghost use Rattle.sets.specs.Numbers.{numbers};
ghost use Rattle.sets.specs.Sets.{public_bytes, private_bytes, vinegar_bytes, target_bytes, work_bytes};
ghost use Rattle.streams.specs.TermOf.{AbqLent};
ghost use Rattle.scheme.specs.Regroup.{power_times};
ghost use Rattle.scheme.specs.Streams.{vinegar_of};
ghost use Rattle.tables.specs.RingRows.{Powers};
ghost use Rattle.tables.specs.Table.{Holds};
ghost use Rattle.signing.specs.Solving.{Built, Solving};

use linear::Singular;
use sets::{
    AllowedSet, POWER_SUMS_ROOM, POWERS_ROOM, PRIVATE_ROOM, SIDE_SUMS_ROOM, VINEGAR_POWERS_ROOM,
    VINEGAR_ROOM,
};

// x becomes the powers of S times the vinegar. sp is the table of the powers of S.
fn load_vinegar(x: &mut [u8], set: AllowedSet, vinegar: &[u8], sp: &[u8])
    requires vinegar_len { length vinegar.now ≡ vinegar_bytes (numbers set) }
    requires l_in_bounds { (set.v * set.l * (set.l * set.l) ≤ length x.old) × ((set.l * set.l * set.l ≤ length sp.now) × Powers set.l sp.now) }
    ensures { Holds set.l (set.l * set.l) set.v set.l x.new (λ j b. power_times set.l b (vinegar_of (numbers set) vinegar.now j)) }
{
    let count = sets::vinegar_count(set);
    let mut list = [0u8; VINEGAR_ROOM];
    tables::unpack_all(&mut list, vinegar, count);
    tables::power_table(x, set.l, set.v, &list, sp);
}

// The work area becomes the system, and zeros behind it.
fn build_system(
    work: &mut [u8],
    set: AllowedSet,
    public: &[u8],
    abq: &[u8],
    private: &[u8],
    vinegar: &[u8],
    target: &[u8],
)
    requires abq_lent { AbqLent (numbers set) abq.now }
    requires public_len { (length public.now ≡ public_bytes (numbers set)) × (length private.now ≡ private_bytes (numbers set)) }
    requires vinegar_len { (length vinegar.now ≡ vinegar_bytes (numbers set)) × ((length target.now ≡ target_bytes (numbers set)) × (length work.old ≡ work_bytes (numbers set))) }
    ensures { Built (numbers set) public.now abq.now private.now vinegar.now target.now work.new }
{
    let mut sp = [0u8; POWERS_ROOM];
    tables::powers_of_s(&mut sp, set.l);
    let mut t = [0u8; PRIVATE_ROOM];
    tables::private_table(&mut t, set, private, &sp);
    let mut x = [0u8; VINEGAR_POWERS_ROOM];
    load_vinegar(&mut x, set, vinegar, &sp);
    let mut left = [0u8; SIDE_SUMS_ROOM];
    partial_sums::fill_left(&mut left, set, public, &x, &t);
    let mut right = [0u8; SIDE_SUMS_ROOM];
    let mut sums = [0u8; POWER_SUMS_ROOM];
    partial_sums::fill_right(&mut right, &mut sums, set, public, &x, &t);
    system::build(work, set, abq, target, &left, &right, &sums, &sp);
}

// Ok leaves the unknowns in column N of the work area.
pub fn solve(
    work: &mut [u8],
    set: AllowedSet,
    public: &[u8],
    abq: &[u8],
    private: &[u8],
    vinegar: &[u8],
    target: &[u8],
) -> Result<(), Singular>
    requires abq_lent { AbqLent (numbers set) abq.now }
    requires public_len { (length public.now ≡ public_bytes (numbers set)) × (length private.now ≡ private_bytes (numbers set)) }
    requires vinegar_len { (length vinegar.now ≡ vinegar_bytes (numbers set)) × ((length target.now ≡ target_bytes (numbers set)) × (length work.old ≡ work_bytes (numbers set))) }
    ensures { Solving (numbers set) public.now abq.now private.now vinegar.now target.now result work.new }
{
    build_system(work, set, public, abq, private, vinegar, target);
    let n = sets::unknowns(set);
    linear::eliminate(work, n)
}
