// A block of an exercise book (page 02, Req 13): 512 bytes that say what they hold, and their check. `block` reads one, `turn` judges it, `making` makes one.
// What a block is, its check, its form and its turn stand in specs/; so does that one altered word is always seen.
#![tactic(auto)]

mod block;
mod making;
mod turn;

pub use block::{block_at, head_of, size_of};
pub use making::{fill, put};
pub use turn::fault_of;

// What a block says of itself.
#[derive(Clone, Copy)]
pub struct Head {
    pub exercise: u16,
    pub kind: u8,
    pub part: u16,
}

// What stands before the first block: of kind 0, so that every block of part 0 is in turn after it, and no other.
pub const START: Head = Head {
    exercise: 0,
    kind: 0,
    part: 0,
};
