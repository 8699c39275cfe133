// Refusal 21, decided before anything is written: every A and every B of the ABQ stream can be made invertible.
ghost use Rattle.std.specs.Prelude.{◌≡◌, [], ◌∷◌, length};
ghost use Rattle.ground.specs.Answers.{number_of, first, unless};
ghost use Rattle.ground.specs.declared.Refusal.TheVariants.{NotInvertible};
ghost use Rattle.sets.specs.Bounds.{Bounds};
ghost use Rattle.sets.specs.Sets.{abq_bytes};
ghost use Rattle.scheme.specs.Maps.{all_invertible};

use ground::Refusal;
use sets::{AllowedSet, Set};
use streams::invertible_at;

pub fn all_invertible(set: Set, abq: &[u8]) -> Result<(), Refusal>
    requires { Bounds set × (length abq.now ≡ abq_bytes set) }
    ensures { number_of result ≡ first (unless NotInvertible (all_invertible set abq.now) ∷ []) }
{
    let count = 2 * sets::all_terms(AllowedSet::known(set));
    for b in 0..count {
        invertible_at(abq, set.l, b)?;
    }
    Ok(())
}
