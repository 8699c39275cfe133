// The refusal that each operation gives for the lengths that it was lent: the first in the operation's order whose condition holds.
// Only the buffers that the operation takes are looked at. An output of another length is 20, whatever it is to hold.
#![tactic(auto)]

ghost use Rattle.ground.specs.Answers.{first, number_of};
ghost use Rattle.std.specs.Prelude.{◌≡◌};
ghost use Rattle.refusals.specs.Rules.{keygen_rules, sign_rules, verdict_rules, salt_rules};

use ground::{Refusal, demand};
use sets::{
    SALT_BYTES, Set, abq_bytes, allowed, key_bytes, private_bytes, public_bytes, signature_bytes,
    target_bytes, vinegar_bytes, work_bytes,
};

#[tactic(auto, unfolding(ground::specs::Answers::first, crate::specs::Rules::keygen_rules))]
pub fn keygen_refusal(s: Set, public: usize, private: usize, output: usize) -> Result<(), Refusal>
    ensures { number_of result ≡ first (keygen_rules s public private output) }
{
    demand(allowed(s), Refusal::SetNotAllowed)?;
    demand(public == public_bytes(s), Refusal::PublicLength)?;
    demand(private == private_bytes(s), Refusal::PrivateLength)?;
    demand(output == key_bytes(s), Refusal::OutputLength)
}

#[tactic(auto, unfolding(ground::specs::Answers::first, crate::specs::Rules::sign_rules))]
pub fn sign_refusal(
    s: Set,
    public: usize,
    abq: usize,
    private: usize,
    vinegar: usize,
    target: usize,
    salt: usize,
    work: usize,
    output: usize,
) -> Result<(), Refusal>
    ensures { number_of result ≡ first (sign_rules s public abq private vinegar target salt work output) }
{
    demand(allowed(s), Refusal::SetNotAllowed)?;
    demand(public == public_bytes(s), Refusal::PublicLength)?;
    demand(abq == abq_bytes(s), Refusal::AbqLength)?;
    demand(private == private_bytes(s), Refusal::PrivateLength)?;
    demand(vinegar == vinegar_bytes(s), Refusal::VinegarLength)?;
    demand(target == target_bytes(s), Refusal::TargetLength)?;
    demand(salt == SALT_BYTES, Refusal::SaltLength)?;
    demand(work == work_bytes(s), Refusal::WorkLength)?;
    demand(output == signature_bytes(s), Refusal::OutputLength)
}

#[tactic(auto, unfolding(ground::specs::Answers::first, crate::specs::Rules::verdict_rules))]
pub fn verdict_refusal(
    s: Set,
    public: usize,
    abq: usize,
    target: usize,
    key: usize,
    signature: usize,
) -> Result<(), Refusal>
    ensures { number_of result ≡ first (verdict_rules s public abq target key signature) }
{
    demand(allowed(s), Refusal::SetNotAllowed)?;
    demand(public == public_bytes(s), Refusal::PublicLength)?;
    demand(abq == abq_bytes(s), Refusal::AbqLength)?;
    demand(target == target_bytes(s), Refusal::TargetLength)?;
    demand(key == key_bytes(s), Refusal::KeyLength)?;
    demand(signature == signature_bytes(s), Refusal::SignatureLength)
}

// Of a signature of so many bytes.
#[tactic(auto, unfolding(ground::specs::Answers::first, crate::specs::Rules::salt_rules))]
pub fn salt_refusal(s: Set, bytes: usize) -> Result<(), Refusal>
    ensures { number_of result ≡ first (salt_rules s bytes) }
{
    demand(allowed(s), Refusal::SetNotAllowed)?;
    demand(bytes == signature_bytes(s), Refusal::SignatureLength)
}
