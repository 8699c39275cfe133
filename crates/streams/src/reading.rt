// Term (i, alpha) of an equation, read from the ABQ stream: each term is made once for each use of it.
ghost use Rattle.streams.specs.TermPlaces.{TermPlace};
ghost use Rattle.streams.specs.TermOf.{AbqLent, TermOf};
ghost use Rattle.sets.specs.Numbers.{numbers};

use super::Term;
use super::blocks::invertible_at;
use super::coefficients::coefficients_of;
use super::places::{a_number, b_number, matrix_index, q1_number, q2_number};
use sets::AllowedSet;

// No block of the ABQ stream is refused, so A and B are there.
pub fn read_term(set: AllowedSet, abq: &[u8], i: usize, alpha: usize) -> Term
    requires term_place { TermPlace (numbers set) i alpha }
    requires abq_lent { AbqLent (numbers set) abq.now }
    ensures { TermOf (numbers set) abq.now i alpha result }
{
    let l = set.l;
    let set = set.numbers();
    let a = invertible_at(abq, l, a_number(set, i, alpha)).unwrap();
    let b = invertible_at(abq, l, b_number(set, i, alpha)).unwrap();
    let q1 = coefficients_of(abq, l, q1_number(set, i, alpha));
    let q2 = coefficients_of(abq, l, q2_number(set, i, alpha));
    let index = matrix_index(set, i, alpha);
    Term {
        a,
        b,
        q1,
        q2,
        index,
    }
}
