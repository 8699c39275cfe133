// How many elements each stream holds. The set is allowed, by its type or by what is asked of it, so no product wraps.
// One function for each line of page 01's table: alike in form, and no plainer.
ghost use Rattle.std.specs.Prelude.{◌≡◌};
ghost use Rattle.sets.specs.Sets.{terms as Sets·terms, all_terms, unknowns as Sets·unknowns};
ghost use Rattle.sets.specs.Sets.{public_count, abq_count, private_count, vinegar_count, target_count, key_count, signature_count};
ghost use Rattle.sets.specs.Bounds.{Bounds};
ghost use Rattle.sets.specs.Numbers.{numbers};

use crate::{AllowedSet, Set};

// The terms of an equation: alpha runs below this.
pub fn terms(s: AllowedSet) -> usize
    ensures { result ≡ Sets·terms (numbers s) }
{
    s.l * s.l + s.l
}

// The terms of all equations: as many A stand in the ABQ stream.
pub fn all_terms(s: AllowedSet) -> usize
    ensures { result ≡ all_terms (numbers s) }
{
    s.o * terms(s)
}

// The unknowns of a signing's linear system, N.
pub fn unknowns(s: AllowedSet) -> usize
    ensures { result ≡ Sets·unknowns (numbers s) }
{
    s.o * (s.l * s.l)
}

pub fn public_count(s: Set) -> usize
    requires { Bounds s }
    ensures { result ≡ public_count s }
{
    s.o * (s.v * s.v + 2 * s.v * s.o) * (s.l * s.l)
}

pub fn abq_count(s: Set) -> usize
    requires { Bounds s }
    ensures { result ≡ abq_count s }
{
    all_terms(AllowedSet::known(s)) * (2 * (s.l * s.l) + 2 * s.l)
}

pub fn private_count(s: Set) -> usize
    requires { Bounds s }
    ensures { result ≡ private_count s }
{
    s.v * s.o * s.l
}

pub fn vinegar_count(s: AllowedSet) -> usize
    ensures { result ≡ vinegar_count (numbers s) }
{
    s.v * (s.l * s.l)
}

pub fn target_count(s: AllowedSet) -> usize
    ensures { result ≡ target_count (numbers s) }
{
    s.o * (s.l * s.l)
}

pub fn key_count(s: AllowedSet) -> usize
    ensures { result ≡ key_count (numbers s) }
{
    s.o * s.o * s.o * (s.l * s.l)
}

pub fn signature_count(s: AllowedSet) -> usize
    ensures { result ≡ signature_count (numbers s) }
{
    (s.v + s.o) * (s.l * s.l)
}
