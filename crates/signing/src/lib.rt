// Signing (document 000, Algorithm 7): the vinegar fixes the first v matrices of X, the linear system gives the oil, and the signature holds the U whose image is X.
// `Signs` of specs/Signs.antt is the promise; specs/Unique.antt shows that it has one outcome and that what is emitted is accepted.
#![tactic(auto)]

mod numbers;
mod solving;
mod writing;

ghost use Rattle.std.specs.Prelude.{◌≡◌, Ok};
ghost use Rattle.ground.specs.Answers.{first};
ghost use Rattle.scheme.specs.Refusals.{sign_refusals};
ghost use Rattle.signing.specs.Signs.{Signs};
ghost use Rattle.sets.specs.Numbers.{numbers};

use ground::Refusal;
use linear::Singular;
use sets::{AllowedSet, Set};
use solving::solve;
use writing::emit;

// What a signing that is not refused comes to. Done: the output holds the signature. Redo: some oil choice, not all zero, is sent to zero, and the host tries
// again with another vinegar.
// A type of its own beside Verdict and Next: each has the page's names for its call.
#[derive(Clone, Copy, Debug, PartialEq, Eq)]
pub enum Signing {
    Done,
    Redo,
}

// Signing where nothing is refused.
fn sign_lent(
    set: AllowedSet,
    public: &[u8],
    abq: &[u8],
    private: &[u8],
    vinegar: &[u8],
    target: &[u8],
    salt: &[u8],
    work: &mut [u8],
    output: &mut [u8],
) -> Signing
    requires { first (sign_refusals (numbers set) public.now abq.now private.now vinegar.now target.now salt.now work.old output.old) ≡ 0 }
    ensures { Signs (numbers set) public.now abq.now private.now vinegar.now target.now salt.now
        work.old output.old (Ok result) work.new output.new }
{
    match solve(work, set, public, abq, private, vinegar, target) {
        Ok(()) => {
            emit(output, set, private, vinegar, salt, work);
            rows::clear(work);
            Signing::Done
        }
        Err(Singular) => {
            rows::clear(work); // the output stays as it was
            Signing::Redo
        }
    }
}

// Signs the target with the vinegar. A refusal is decided before the first byte is written; on Done and Redo the work area is left all zero.
pub fn sign(
    set: Set,
    public: &[u8],
    abq: &[u8],
    private: &[u8],
    vinegar: &[u8],
    target: &[u8],
    salt: &[u8],
    work: &mut [u8],
    output: &mut [u8],
) -> Result<Signing, Refusal>
    ensures { Signs set public.now abq.now private.now vinegar.now target.now salt.now
        work.old output.old result work.new output.new }
{
    checks::check_sign(
        set, public, abq, private, vinegar, target, salt, work, output,
    )?;
    let set = AllowedSet::new(set)?;
    let signed = sign_lent(
        set, public, abq, private, vinegar, target, salt, work, output,
    );
    Ok(signed)
}
