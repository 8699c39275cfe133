// The salvage of a bad card (page 02, Req 14): every good block of an exercise that is not spoiled goes into a new book, and a list tells what became of each old block.
// Four passes: `judging` lists each block's fault, `marking` marks the spoiled exercises, `listing` lists the blocks that they spoil, `keeping` writes what is kept.
#![tactic(auto)]

mod judging;
mod keeping;
mod listing;
mod marking;

ghost use Rattle.std.specs.Prelude.{◌≡◌};
ghost use Rattle.ground.specs.Answers.{first, number_of};
ghost use Rattle.salvage.specs.Salvages.{salvage_rules, Salvages};

use ground::{Refusal, demand};

// 40, or 20 for the length of the output or of the list.
#[tactic(auto, unfolding(ground::specs::Answers::first))]
fn check_salvage(book: &[u8], output: &[u8], list: &[u8]) -> Result<(), Refusal>
    ensures { number_of result ≡ first (salvage_rules book.now output.now list.now) }
{
    demand(book_reader::is_whole(book), Refusal::BookSize)?;
    demand(output.len() == book.len(), Refusal::OutputLength)?;
    demand(list.len() == book.len() / 512, Refusal::OutputLength)
}

// The kept blocks go into the output from its start on, what follows them stays; the list gets a number for each old block: 0 kept, 41 to 43 bad, 44 spoiled.
// The answer is how many blocks were kept. 40 or 20 writes nothing.
pub fn salvage(book: &[u8], output: &mut [u8], list: &mut [u8]) -> Result<usize, Refusal>
    ensures { Salvages book.now output.old list.old result output.new list.new }
{
    check_salvage(book, output, list)?;
    judging::judge(book, list);
    listing::settle(book, list);
    Ok(keeping::keep(output, book, list))
}
