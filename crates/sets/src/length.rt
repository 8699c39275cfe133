// The exact length in bytes of every stream and buffer of a set; 0 for a set that is not allowed.
// One function for each line of page 01's table, since callers in C have one for each.
ghost use Rattle.std.specs.Prelude.{◌≡◌};
ghost use Rattle.ground.specs.Pick.{pick};
ghost use Rattle.sets.specs.Numbers.{numbers};
ghost use Rattle.sets.specs.Sets.{allowed_set};
ghost use Rattle.sets.specs.Sets.{public_bytes, abq_bytes, private_bytes, vinegar_bytes, target_bytes, key_bytes, signature_bytes, work_bytes};

use crate::count::{
    abq_count, key_count, private_count, public_count, signature_count, target_count, unknowns,
    vinegar_count,
};
use crate::{AllowedSet, SALT_BYTES, Set};

#[tactic(auto, unfolding(crate::specs::Sets::public_bytes))]
pub fn public_bytes(s: Set) -> usize
    ensures { result ≡ pick (allowed_set s) (public_bytes s) 0 }
{
    AllowedSet::new(s).map_or(0, |s| public_count(s.numbers()).div_ceil(2))
}

#[tactic(auto, unfolding(crate::specs::Sets::abq_bytes))]
pub fn abq_bytes(s: Set) -> usize
    ensures { result ≡ pick (allowed_set s) (abq_bytes s) 0 }
{
    AllowedSet::new(s).map_or(0, |s| abq_count(s.numbers()).div_ceil(2))
}

#[tactic(auto, unfolding(crate::specs::Sets::private_bytes))]
pub fn private_bytes(s: Set) -> usize
    ensures { result ≡ pick (allowed_set s) (private_bytes s) 0 }
{
    AllowedSet::new(s).map_or(0, |s| private_count(s.numbers()).div_ceil(2))
}

#[tactic(auto, unfolding(crate::specs::Sets::vinegar_bytes))]
pub fn vinegar_bytes(s: Set) -> usize
    ensures { result ≡ pick (allowed_set s) (vinegar_bytes s) 0 }
{
    AllowedSet::new(s).map_or(0, |s| vinegar_count(s).div_ceil(2))
}

#[tactic(auto, unfolding(crate::specs::Sets::target_bytes))]
pub fn target_bytes(s: Set) -> usize
    ensures { result ≡ pick (allowed_set s) (target_bytes s) 0 }
{
    AllowedSet::new(s).map_or(0, |s| target_count(s).div_ceil(2))
}

#[tactic(auto, unfolding(crate::specs::Sets::key_bytes))]
pub fn key_bytes(s: Set) -> usize
    ensures { result ≡ pick (allowed_set s) (key_bytes s) 0 }
{
    AllowedSet::new(s).map_or(0, |s| key_count(s).div_ceil(2))
}

// The elements packed, then the salt.
#[tactic(auto, unfolding(crate::specs::Sets::signature_bytes))]
pub fn signature_bytes(s: Set) -> usize
    ensures { result ≡ pick (allowed_set s) (signature_bytes s) 0 }
{
    AllowedSet::new(s).map_or(0, |s| signature_count(s).div_ceil(2) + SALT_BYTES)
}

// N(N + 1) + 3·v·o·l².
#[tactic(auto, unfolding(crate::specs::Sets::work_bytes))]
fn work_area(s: AllowedSet) -> usize
    ensures { result ≡ work_bytes (numbers s) }
{
    let n = unknowns(s);
    n * (n + 1) + 3 * s.v * s.o * (s.l * s.l)
}

pub fn work_bytes(s: Set) -> usize
    ensures { result ≡ pick (allowed_set s) (work_bytes s) 0 }
{
    AllowedSet::new(s).map_or(0, work_area)
}
