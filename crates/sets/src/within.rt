// A parameter set that is known to be within page 01's limits: what a function takes that forms products of v, o and l.
// Its fields are those of Set, and `within` says what the test said; proofs/Bounds has what follows (`bounds_of`).
ghost use Rattle.std.specs.Prelude.{◌≡◌, true};
ghost use Rattle.sets.specs.declared.Set.{Set};
ghost use Rattle.sets.specs.Sets.{allowed_set};

use crate::{Set, allowed};
use ground::Refusal;

#[derive(Clone, Copy)]
pub struct AllowedSet {
    pub v: usize,
    pub o: usize,
    pub l: usize,
    ghost within: { allowed_set (record { v = v; o = o; l = l }) ≡ true },
}

impl AllowedSet {
    ghost use Rattle.std.specs.Prelude.{false, IfOk, IfErr};
    ghost use Rattle.ground.specs.declared.Refusal.TheVariants.{SetNotAllowed};
    ghost use Rattle.sets.specs.Bounds.{Bounds};
    ghost use Rattle.sets.specs.Numbers.{numbers};

    // The set, where it is allowed; else refusal 10.
    pub fn new(set: Set) -> Result<AllowedSet, Refusal>
        ensures made { IfOk result (λ a. numbers a ≡ set) }
        ensures refused { IfErr result (λ r. (r ≡ SetNotAllowed) × (allowed_set set ≡ false)) }
    {
        ground::demand(allowed(set), Refusal::SetNotAllowed)?;
        let Set { v, o, l } = set;
        Ok(AllowedSet { v, o, l })
    }

    // A set that is known to be allowed, as one.
    pub fn known(set: Set) -> AllowedSet
        requires { Bounds set }
        ensures { numbers result ≡ set }
    {
        AllowedSet {
            v: set.v,
            o: set.o,
            l: set.l,
        }
    }

    // The set itself, for what asks for one.
    pub fn numbers(self) -> Set
        ensures itself { result ≡ numbers self }
        ensures within { Bounds result }
    {
        Set {
            v: self.v,
            o: self.o,
            l: self.l,
        }
    }
}
