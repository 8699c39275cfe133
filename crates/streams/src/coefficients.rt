// The coefficients of an element of F16[S], read from a group of l elements of a packed stream.
ghost use Rattle.std.specs.Prelude.{◌≡◌, ◌+◌, ◌*◌, ◌<◌, ◌≤◌, length};
ghost use Rattle.matrix.specs.Block.{stride};
ghost use Rattle.ground.specs.Segment.{Segment};
ghost use Rattle.sets.specs.Sets.{most_l};
ghost use Rattle.matrix.specs.RingElements.{coefficient};
ghost use Rattle.scheme.specs.Streams.{group_of};
ghost use Rattle.rows.specs.Zero.{zeros};

use matrix::STRIDE;

// Algorithm 1's coefficient p of a group.
pub fn coefficient_at(stream: &[u8], l: usize, group: usize, p: usize) -> u8
    requires { (p < l) × ((group + 1) * l ≤ 2 * length stream.now) }
    ensures { result ≡ coefficient l (group_of l stream.now group) p }
{
    let own = packing::element(stream, group * l + p);
    if p != l - 1 {
        return own;
    }
    matrix::last_coefficient(own, packing::element(stream, group * l))
}

// All l of them, and zeros behind them.
pub fn coefficients_of(stream: &[u8], l: usize, group: usize) -> [u8; STRIDE]
    requires { (l ≤ most_l) × ((group + 1) * l ≤ 2 * length stream.now) }
    ensures { Segment (zeros stride) 0 l (coefficient l (group_of l stream.now group)) result }
{
    let mut out = [0; STRIDE];
    for p in 0..l {
        out[p] = coefficient_at(stream, l, group, p);
    }
    out
}
