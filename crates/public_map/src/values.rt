// The equations' blocks, written one after the other.
ghost use Rattle.std.specs.Prelude.{ℕ, ◌+◌, ◌*◌, ◌/◌, ◌%◌, ◌<◌, ◌≤◌, length};
ghost use Rattle.ground.specs.Segment.{Segment};
ghost use Rattle.sets.specs.Numbers.{numbers};
ghost use Rattle.matrix.specs.Block.{view, stride};
ghost use Rattle.streams.specs.TermOf.{AbqLent};
ghost use Rattle.terms.specs.Terms.{equation_from};
ghost use Rattle.public_map.specs.Values.{Puts};

use matrix::Block;
use sets::AllowedSet;

// values[at..at + l·l] becomes the entries of an equation's block.
fn put_block(values: &mut [u8], at: usize, l: usize, block: Block)
    requires { (0 < l) × ((l ≤ stride) × (at + l * l ≤ length values.old)) }
    ensures { Segment values.old at (l * l) (λ e. view block (e / l) (e % l)) values.new }
{
    let n = l * l;
    for e in 0..n {
        values[at + e] = matrix::entry(block, e / l, e % l);
    }
}

// Every equation from the table of power sums.
pub fn put_values(values: &mut [u8], set: AllowedSet, abq: &[u8], sums: &[u8])
    requires abq_lent { AbqLent (numbers set) abq.now }
    requires l_in_bounds { (set.o * (set.l * set.l) ≤ length values.old) × (set.o * (set.l * set.l) * (set.l * set.l) ≤ length sums.now) }
    ensures { Puts set.l set.o (equation_from (numbers set) abq.now sums.now) values.old values.new }
{
    let l = set.l;
    let o = set.o;
    for i in 0..o {
        let equation = terms::equation_block(set, abq, sums, i);
        put_block(values, i * (l * l), l, equation);
    }
}
