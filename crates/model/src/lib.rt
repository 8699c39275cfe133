// The model: SNOVA version 2 over GF(16), page 01. Here stand the functions that users call; each crate below has one of them, with its contract and its proof.
// What they promise together, the user's three sentences, is in specs/Sentences.antt; `chain` is the function that really calls the three operations.
#![tactic(auto)]

mod chain;

pub use chain::sign_and_verify;
pub use ground::Refusal;
pub use keys::generate;
pub use packing::{pack, unpack};
pub use salt::{salt, salt_status};
pub use sets::Set;
pub use signing::{Signing, sign};
pub use verdict::{Verdict, verify};

// What becomes of key generation, signing and the verdict, called one after the other, where none of them refuses.
#[derive(Clone, Copy, Debug, PartialEq, Eq)]
pub enum Outcome {
    Accepted,
    NotAccepted,
    Redo,
}
