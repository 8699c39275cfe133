// The values of the public map of a key at a list of matrices. All powers of S are taken at once: for each matrix index the sums over j and k are formed once for every
// pair of powers (`sums`, over the block rows of `block_rows`), and each equation is put together from them (`values`).
#![tactic(auto)]

mod block_rows;
mod sums;
mod values;

ghost use Rattle.std.specs.Prelude.{◌*◌, ◌≤◌, length};
ghost use Rattle.sets.specs.Sets.{variables};
ghost use Rattle.tables.specs.Unpacked.{list_of};
ghost use Rattle.public_map.specs.Values.{MapLent, MapValues};

use sets::{AllowedSet, LIST_POWERS_ROOM, POWER_SUMS_ROOM, Set};
use sums::{all_sums, list_table};
use values::put_values;

// values[..o·l²] becomes the entries of the public map at the matrices of the list, equation by equation, each row by row; what stands behind them stays.
// The list holds n matrices, an element to a byte.
pub fn evaluate(values: &mut [u8], set: Set, public: &[u8], abq: &[u8], key: &[u8], list: &[u8])
    requires map_lent { MapLent set public.now abq.now key.now }
    requires l_in_bounds { (variables set * (set.l * set.l) ≤ length list.now) × (set.o * (set.l * set.l) ≤ length values.old) }
    ensures { MapValues set public.now abq.now key.now (list_of set.l list.now) values.old values.new }
{
    let set = AllowedSet::known(set);
    let mut w = [0u8; LIST_POWERS_ROOM];
    list_table(&mut w, set, list);
    let mut sums = [0u8; POWER_SUMS_ROOM];
    all_sums(&mut sums, set, public, key, &w);
    put_values(values, set, abq, &sums);
}
