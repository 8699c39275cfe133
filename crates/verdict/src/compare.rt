// The values of the public map against the target: the first entry that differs, if there is one. What says why a signature was not accepted uses the same search.
ghost use Rattle.std.specs.Prelude.{◌≡◌, ◌*◌, ◌≤◌, length, get_or};
ghost use Rattle.packing.specs.Packing.{element};
ghost use Rattle.scheme.specs.Verdict.{accepted};
ghost use Rattle.checks.specs.Lent.{VerdictLent};
ghost use Rattle.verdict.specs.Difference.{FirstDifference};
ghost use Rattle.sets.specs.Numbers.{numbers};

use sets::{AllowedSet, LIST_ROOM, MOST_ROW};

// The number of the first of n values that is not the target's element, or n where there is none.
pub fn first_difference(values: &[u8], target: &[u8], n: usize) -> usize
    requires { (n ≤ length values.now) × (n ≤ 2 * length target.now) }
    ensures { FirstDifference n (λ e. get_or values.now e 0) (element target.now) result }
{
    (0..n)
        .find(|e| values[*e] != packing::element(target, *e))
        .unwrap_or(n)
}

// The public map of the key meets the target at the signature: no entry differs.
pub fn accepts(
    set: AllowedSet,
    public: &[u8],
    abq: &[u8],
    target: &[u8],
    key: &[u8],
    signature: &[u8],
) -> bool
    requires { VerdictLent (numbers set) public.now abq.now target.now key.now signature.now }
    ensures { result ≡ accepted (numbers set) public.now abq.now key.now signature.now target.now }
{
    let mut list = [0u8; LIST_ROOM];
    tables::unpack_all(&mut list, signature, sets::signature_count(set));
    let mut values = [0u8; MOST_ROW];
    public_map::evaluate(&mut values, set.numbers(), public, abq, key, &list);
    let n = sets::target_count(set);
    first_difference(&values, target, n) == n
}
