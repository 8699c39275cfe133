// The three operations called one after the other, as the third sentence tells them: what signing emits is accepted under the key that was generated.
ghost use Rattle.std.specs.Prelude.{◌≡◌};
ghost use Rattle.model.specs.Chain.{outcome_of, SignsAndVerifies};

use crate::Outcome;
use ground::Refusal;
use sets::Set;
use signing::Signing;
use verdict::Verdict;

// A verdict as an outcome.
// A match of two names to two names: no plainer, since Outcome has a third.
fn judged(verdict: Verdict) -> Outcome
    ensures { result ≡ outcome_of verdict }
{
    match verdict {
        Verdict::Accepted => Outcome::Accepted,
        Verdict::NotAccepted => Outcome::NotAccepted,
    }
}

// Generates the key, signs the target with the vinegar and verifies the signature under that key. The first refusal is handed up, and so is redo; otherwise accepted.
pub fn sign_and_verify(
    set: Set,
    public: &[u8],
    abq: &[u8],
    private: &[u8],
    vinegar: &[u8],
    target: &[u8],
    salt: &[u8],
    work: &mut [u8],
    key: &mut [u8],
    signature: &mut [u8],
) -> Result<Outcome, Refusal>
    ensures { SignsAndVerifies set public.now abq.now private.now vinegar.now target.now salt.now
        work.old key.old signature.old result work.new key.new signature.new }
{
    keys::generate(set, public, private, key)?;
    let signed = signing::sign(
        set, public, abq, private, vinegar, target, salt, work, signature,
    )?;
    match signed {
        Signing::Redo => Ok(Outcome::Redo),
        Signing::Done => {
            let verdict = verdict::verify(set, public, abq, target, key, signature)?;
            Ok(judged(verdict))
        }
    }
}
