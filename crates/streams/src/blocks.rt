// A block of a packed stream, read as a matrix, and made invertible by Algorithm 2.
ghost use Rattle.std.specs.Prelude.{◌≡◌, true, ◌+◌, ◌*◌, ◌≤◌, length};
ghost use Rattle.ground.specs.Pick.{pick};
ghost use Rattle.matrix.specs.Block.{block, cell};
ghost use Rattle.matrix.specs.Invertible.{algorithm2, can_be_invertible};
ghost use Rattle.matrix.specs.Limits.{size_allowed};
ghost use Rattle.matrix.specs.Promises.{Makes};
ghost use Rattle.scheme.specs.Streams.{block_of};

use ground::Refusal;
use matrix::Block;

// Block number of a packed stream.
#[tactic(auto, unfolding(scheme::specs::Streams::block_of))]
pub fn read_block(stream: &[u8], l: usize, number: usize) -> Block
    requires { (number + 1) * (l * l) ≤ 2 * length stream.now }
    ensures { result ≡ block l (block_of l stream.now number) }
{
    matrix::filled(
        l,
        |r, c| packing::element(stream, number * (l * l) + (r * l + c)),
    )
}

// What Algorithm 2 makes of block number of a packed stream, or its refusal, 21, as it is.
pub fn invertible_at(stream: &[u8], l: usize, number: usize) -> Result<Block, Refusal>
    requires { (size_allowed l ≡ true) × ((number + 1) * (l * l) ≤ 2 * length stream.now) }
    ensures { Makes (pick (can_be_invertible l (block_of l stream.now number)) 0 21)
        (block l (algorithm2 l (block_of l stream.now number))) result }
{
    matrix::make_invertible(l, read_block(stream, l, number))
}
