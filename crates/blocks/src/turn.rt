// The turn of a block after another, and the faults that the reader looks for, the lowest first.
ghost use Rattle.std.specs.Prelude.{◌≡◌, length};
ghost use Rattle.ground.specs.Answers.{number_of};
ghost use Rattle.blocks.specs.Turn.{in_turn, fault_of};

use crate::Head;
use crate::block::{check_of, head_of, is_formed, word_at};
use ground::{Refusal, demand};

// The next part of the same field, or part 0 of a higher kind or exercise.
#[tactic(auto, unfolding(crate::specs::Turn::in_turn))]
fn in_turn(before: Head, h: Head) -> bool
    ensures { result ≡ in_turn before h }
{
    let same = h.exercise == before.exercise;
    let next = same && h.kind == before.kind && u32::from(h.part) == u32::from(before.part) + 1;
    let higher = (same && before.kind < h.kind) || before.exercise < h.exercise;
    next || (h.part == 0 && higher)
}

// The block's lowest fault, if it has one: 41, 42 or 43.
#[tactic(auto, unfolding(ground::specs::Answers::first, crate::specs::Turn::fault_of, crate::specs::Block::checked))]
pub fn fault_of(block: &[u8], place: u32, before: Head) -> Result<(), Refusal>
    requires { length block.now ≡ 512 }
    ensures { number_of result ≡ fault_of place before block.now }
{
    let checked = word_at(block, 127) == check_of(block, place);
    demand(checked, Refusal::BlockCheck)?;
    demand(is_formed(block), Refusal::BlockForm)?;
    demand(in_turn(before, head_of(block)), Refusal::BlockOutOfTurn)
}
