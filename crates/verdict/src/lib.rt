// The verdict: the values of the public map at a signature's matrices, compared with the target (`compare`). The salt is not read.
#![tactic(auto)]

mod compare;
mod numbers;

ghost use Rattle.verdict.specs.Promise.{Verifies};

use compare::accepts;
pub use compare::first_difference;
use ground::Refusal;
use sets::{AllowedSet, Set};

// What verification says of a signature that is not refused: accepted is page 01's 0, not accepted its 1.
// A type of its own beside Signing and Next: each has the page's names for its call.
#[derive(Clone, Copy, Debug, PartialEq, Eq)]
pub enum Verdict {
    Accepted,
    NotAccepted,
}

// Whether the public map of the key meets the target at the signature. Refusals: 10, 11, 12, 15, 16, 18, 21, the first in this order.
pub fn verify(
    set: Set,
    public: &[u8],
    abq: &[u8],
    target: &[u8],
    key: &[u8],
    signature: &[u8],
) -> Result<Verdict, Refusal>
    ensures { Verifies set public.now abq.now target.now key.now signature.now result }
{
    checks::check_verdict(set, public, abq, target, key, signature)?;
    let set = AllowedSet::new(set)?;
    if accepts(set, public, abq, target, key, signature) {
        Ok(Verdict::Accepted)
    } else {
        Ok(Verdict::NotAccepted)
    }
}
