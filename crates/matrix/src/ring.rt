// Elements of F16[S]: S, its powers, and Algorithm 1's coefficients and combination.
ghost use Rattle.std.specs.Prelude.{◌≡◌, ◌-◌, ◌<◌, ◌≤◌, eqb, get_or};
ghost use Rattle.ground.specs.Pick.{pick};
ghost use Rattle.matrix.specs.RingElements.{one_m, S, power_s, last_coefficient, algorithm1};
ghost use Rattle.matrix.specs.RingElements.{coefficient as coefficient_of};
ghost use Rattle.matrix.specs.Block.{block, stride};
ghost use Rattle.matrix.specs.Promises.{coefficients};

use super::arithmetic::{plus, product, scaled};
use super::blocks::{Block, STRIDE, filled, no_block};

// S: 8 - r - c at row r, column c.
#[tactic(auto, using(crate::proofs::Entries::s_inside))]
pub fn s_matrix(l: usize) -> Block
    ensures { result ≡ block l (S l) }
{
    filled(l, |r, c| (8 - r - c) as u8)
}

// The one: I.
#[tactic(auto, using(crate::specs::Steps::one_inside))]
pub fn one(l: usize) -> Block
    ensures { result ≡ block l (one_m l) }
{
    filled(l, |r, c| u8::from(r == c))
}

// S to the k.
pub fn s_power(l: usize, k: usize) -> Block
    requires { l ≤ stride }
    ensures { result ≡ block l (power_s l k) }
{
    let s = s_matrix(l);
    let mut power = one(l);
    for i in 0..k {
        let next = product(l, s, power);
        power = next;
    }
    power
}

// Algorithm 1's rule for the last coefficient: if it is 0 it becomes 16 - a0, or 15 if a0 is 0.
// Two selects, in the words of Algorithm 1: no plainer.
pub fn last_coefficient(own: u8, a0: u8) -> u8
    requires { a0 < 16 }
    ensures { result ≡ last_coefficient own a0 }
{
    if own != 0 {
        return own;
    }
    if a0 == 0 { 15 } else { 16 - a0 }
}

// Algorithm 1's coefficient k.
pub fn coefficient(l: usize, a: [u8; STRIDE], k: usize) -> u8
    requires { (0 < l) × ((k < stride) × (get_or a 0 0 < 16)) }
    ensures { result ≡ coefficient_of l (coefficients a) k }
{
    let own = a[k];
    if k != l - 1 {
        return own;
    }
    last_coefficient(own, a[0])
}

// Algorithm 1: a0·I + a1·S + .. + a(l-1)·S^(l-1), at those coefficients.
pub fn combination(l: usize, a: [u8; STRIDE]) -> Block
    requires { (0 < l) × ((l ≤ stride) × (get_or a 0 0 < 16)) }
    ensures { result ≡ block l (algorithm1 l (coefficients a)) }
{
    let s = s_matrix(l);
    let mut power = one(l);
    let mut sum = no_block();
    for k in 0..l {
        let term = scaled(l, coefficient(l, a, k), power);
        let more = plus(l, sum, term);
        sum = more;
        let next = product(l, s, power);
        power = next;
    }
    sum
}
