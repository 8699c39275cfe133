// Every refusal of an operation, the rules about contents included, decided before anything is written. One function for each operation that asks about contents:
// what else works on the same buffers calls it too. Where an operation asks about lengths alone (key generation, the salt), the crate refusals has that function.
#![tactic(auto)]

mod invertible;

ghost use Rattle.std.specs.Prelude.{◌≡◌};
ghost use Rattle.ground.specs.Answers.{number_of, first};
ghost use Rattle.scheme.specs.Refusals.{sign_refusals, verdict_refusals};

use ground::Refusal;
pub use invertible::all_invertible;
use sets::Set;

// Signing's refusals: 10, 11, 12, 13, 14, 15, 17, 19, 20, 21, the first in this order.
pub fn check_sign(
    set: Set,
    public: &[u8],
    abq: &[u8],
    private: &[u8],
    vinegar: &[u8],
    target: &[u8],
    salt: &[u8],
    work: &[u8],
    output: &[u8],
) -> Result<(), Refusal>
    ensures { number_of result ≡ first (sign_refusals set public.now abq.now private.now vinegar.now target.now
        salt.now work.now output.now) }
{
    refusals::sign_refusal(
        set,
        public.len(),
        abq.len(),
        private.len(),
        vinegar.len(),
        target.len(),
        salt.len(),
        work.len(),
        output.len(),
    )?;
    all_invertible(set, abq)
}

// The verdict's refusals: 10, 11, 12, 15, 16, 18, 21, the first in this order.
pub fn check_verdict(
    set: Set,
    public: &[u8],
    abq: &[u8],
    target: &[u8],
    key: &[u8],
    signature: &[u8],
) -> Result<(), Refusal>
    ensures { number_of result ≡ first (verdict_refusals set public.now abq.now target.now key.now signature.now) }
{
    refusals::verdict_refusal(
        set,
        public.len(),
        abq.len(),
        target.len(),
        key.len(),
        signature.len(),
    )?;
    all_invertible(set, abq)
}
