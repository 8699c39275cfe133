// The blocks of a stream laid out one element to a byte.
ghost use Rattle.std.specs.Prelude.{◌+◌, ◌*◌, ◌<◌, ◌≤◌, length};
ghost use Rattle.streams.specs.Laid.{Laid};

// Lays the elements of count blocks of the stream into flat, one to a byte, from the place on that is answered: 1 where the first block begins in the middle of a byte.
#[tactic(auto, unfolding(packing::specs::Packing::packed_bytes))]
pub fn lay_blocks(flat: &mut [u8], stream: &[u8], number: usize, l: usize, count: usize) -> usize
    requires { ((number + count) * (l * l) ≤ 2 * length stream.now) × ((count * (l * l) + 2 ≤ length flat.old) × ((0 < count) × (0 < l))) }
    ensures { Laid l count stream.now number result flat.new }
{
    let size = l * l;
    let from = number * size;
    let start = from / 2;
    let end = (number + count) * size;
    packing::spread(flat, stream, start, packing::packed_bytes(end) - start);
    from % 2
}
