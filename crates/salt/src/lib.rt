// The salt of a signature: a part of the caller's own bytes, handed back; and the number that says whether set and length fit.
#![tactic(auto)]

ghost use Rattle.std.specs.Prelude.{◌≡◌, ◌+◌};
ghost use Rattle.salt.specs.Salt.{salt_start, salt_of, SaltStatus};

use ground::Refusal;
use sets::{SALT_BYTES, Set};

// The signature from its sixteenth byte before the end on, or its empty end where set or length is refused: place and contents.
pub fn salt(set: Set, signature: &[u8]) -> &[u8]
    ensures contents { result.now ≡ salt_of set signature.now }
    ensures place { (result.ref_ptr.0 ≡ signature.entry.ref_ptr.0) × (result.ref_ptr.1 ≡ signature.entry.ref_ptr.1 + salt_start set signature.now) }
{
    let n = signature.len();
    match refusals::salt_refusal(set, n) {
        Ok(()) => {
            let start = n - SALT_BYTES;
            &signature[start..]
        }
        Err(_) => &signature[n..],
    }
}

// 0, 10 or 18: what stands in the way of the same two things' salt.
#[tactic(auto, unfolding(crate::specs::Salt::salt_refusal))]
pub fn salt_status(set: Set, signature: &[u8]) -> Result<(), Refusal>
    ensures { SaltStatus set signature.now result }
{
    refusals::salt_refusal(set, signature.len())
}
