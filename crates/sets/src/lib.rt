// Parameter sets, and the exact length of every stream and buffer.
// `allowed` decides page 01's limits, and `AllowedSet` is a set that it lets through; `count` has the numbers of elements, `length` a function for each length, `rooms` the sizes of local buffers.
#![tactic(auto)]

mod count;
mod length;
mod rooms;
mod within;

ghost use Rattle.std.specs.Prelude.{◌≡◌};
ghost use Rattle.sets.specs.Sets.{allowed_set};

pub use count::{
    abq_count, all_terms, key_count, private_count, public_count, signature_count, target_count,
    terms, unknowns, vinegar_count,
};
pub use length::{
    abq_bytes, key_bytes, private_bytes, public_bytes, signature_bytes, target_bytes,
    vinegar_bytes, work_bytes,
};
pub use rooms::{
    FLAT_ROOM, KEY_ROOM, LIST_POWERS_ROOM, LIST_ROOM, LIST_ROWS, POWER_SUMS_ROOM, POWERS_ROOM,
    PRIVATE_ROOM, SIDE_SUMS_ROOM, VINEGAR_POWERS_ROOM, VINEGAR_ROOM, VINEGAR_ROWS,
};
pub use within::AllowedSet;

// The limits, which stand here and nowhere else in the code.
pub const MOST_V: usize = 75;

pub const MOST_O: usize = 33;

pub const LEAST_L: usize = 2;

pub const MOST_L: usize = 4;

pub const MOST_ROW: usize = 160;

pub const SALT_BYTES: usize = 16;

// A parameter set (v, o, l): v vinegar and o oil variables, each an l by l matrix.
#[derive(Clone, Copy)]
pub struct Set {
    pub v: usize,
    pub o: usize,
    pub l: usize,
}

// Whether the set is within page 01's limits. Any numbers are answered: a product is formed only of small ones.
#[tactic(auto, unfolding(crate::specs::Sets::allowed_set))]
pub fn allowed(s: Set) -> bool
    ensures { result ≡ allowed_set s }
{
    (1..=MOST_V).contains(&s.v)
        && (1..=MOST_O).contains(&s.o)
        && (LEAST_L..=MOST_L).contains(&s.l)
        && s.o * (s.l * s.l) <= MOST_ROW
}
