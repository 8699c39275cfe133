// The functions of the C interface, of everything, as a library: snova_c exports them, and libsnova.a has them and no others. Each calls the function of a crate below and gives the page's number of its answer.
// `interface` has page 01's operations, `length_calls` the lengths of their buffers, `response_files` page 02's reader, `book_calls` its exercise books. What the numbers returned promise is in specs/InNumbers.antt.
#![tactic(auto)]

mod book_calls;
mod interface;
mod length_calls;
mod response_files;

pub use book_calls::{
    snova_book_field, snova_book_payload, snova_book_read, snova_book_salvage, snova_book_write,
};
pub use interface::{
    snova_keygen, snova_pack, snova_salt_status, snova_sign, snova_unpack, snova_verify,
};
pub use length_calls::{
    snova_abq_bytes, snova_key_bytes, snova_private_bytes, snova_public_bytes,
    snova_signature_bytes, snova_target_bytes, snova_vinegar_bytes, snova_work_bytes,
};
pub use response_files::{snova_decode_hex, snova_responses};
