// Equation i of a map from a table of its power sums: the sum over alpha of A · (what stands between) · B.
ghost use Rattle.std.specs.Prelude.{◌≡◌, ◌+◌, ◌*◌, ◌<◌, ◌≤◌, length};
ghost use Rattle.sets.specs.Sets.{most_l};
ghost use Rattle.sets.specs.Numbers.{numbers};
ghost use Rattle.matrix.specs.Block.{block};
ghost use Rattle.streams.specs.TermOf.{AbqLent};
ghost use Rattle.terms.specs.Terms.{term_with, equation_from};

use super::gathering::gathered_block;
use matrix::{BYTES, Block};
use sets::AllowedSet;
use streams::Term;

// A term's value, from the table of power sums.
pub fn term_block(l: usize, term: Term, sums: &[u8]) -> Block
    requires { (l ≤ most_l) × ((term.index + 1) * (l * l) * (l * l) ≤ length sums.now) }
    ensures { result ≡ block l (term_with l term sums.now) }
{
    let a = term.a;
    let b = term.b;
    let q1 = term.q1;
    let q2 = term.q2;
    let middle = gathered_block(sums, l, term.index, q1, q2);
    let right = matrix::product(l, middle, b);
    matrix::product(l, a, right)
}

// The sum over alpha: each term is read once.
pub fn equation_block(set: AllowedSet, abq: &[u8], sums: &[u8], i: usize) -> Block
    requires i_lt_o { i < set.o }
    requires abq_lent { AbqLent (numbers set) abq.now }
    requires l_in_bounds { set.o * (set.l * set.l) * (set.l * set.l) ≤ length sums.now }
    ensures { result ≡ block set.l (equation_from (numbers set) abq.now sums.now i) }
{
    let l = set.l;
    let count = sets::terms(set);
    let mut sum = [0; BYTES];
    for alpha in 0..count {
        let term = streams::read_term(set, abq, i, alpha);
        let value = term_block(l, term, sums);
        let more = matrix::plus(l, sum, value);
        sum = more;
    }
    sum
}
