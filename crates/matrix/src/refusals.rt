// What the public functions refuse: 10 for a size outside the limits on l of the crate sets, 23 for an entry or a coefficient above 15.
ghost use Rattle.std.specs.Prelude.{◌≡◌, ◌<◌, ◌≤◌, ltb};
ghost use Rattle.ground.specs.Tests.{every};
ghost use Rattle.ground.specs.Answers.{number_of, first};
ghost use Rattle.matrix.specs.Block.{view, stride};
ghost use Rattle.matrix.specs.Limits.{size_allowed, entries_allowed, coefficients_allowed, matrix_rules, coefficient_rules};
ghost use Rattle.matrix.specs.Promises.{coefficients};

use super::blocks::{Block, STRIDE, entry};
use ground::{Refusal, demand};
use sets::{LEAST_L, MOST_L};

// l is within the limits.
#[tactic(auto, unfolding(crate::specs::Limits::size_allowed))]
fn size_allowed(l: usize) -> bool
    ensures { result ≡ size_allowed l }
{
    (LEAST_L..=MOST_L).contains(&l)
}

// No entry of row r inside l is above 15.
fn row_allowed(l: usize, m: Block, r: usize) -> bool
    requires { (l ≤ stride) × (r < stride) }
    ensures { result ≡ every l (λ c. ltb (view m r c) 16) }
{
    (0..l).all(|c| entry(m, r, c) < 16)
}

// No entry inside l is above 15.
fn entries_allowed(l: usize, m: Block) -> bool
    requires { l ≤ stride }
    ensures { result ≡ entries_allowed l (view m) }
{
    (0..l).all(|r| row_allowed(l, m, r))
}

// None of the first l coefficients is above 15.
fn coefficients_allowed(l: usize, a: [u8; STRIDE]) -> bool
    requires { l ≤ stride }
    ensures { result ≡ coefficients_allowed l (coefficients a) }
{
    a[..l].iter().all(|x| *x < 16)
}

// 10, then 23, for an l by l matrix.
#[tactic(auto, unfolding(ground::specs::Answers::first))]
pub fn check_matrix(l: usize, m: Block) -> Result<(), Refusal>
    ensures { number_of result ≡ first (matrix_rules l (view m)) }
{
    demand(size_allowed(l), Refusal::SetNotAllowed)?;
    demand(entries_allowed(l, m), Refusal::AboveFifteen)
}

// 10, then 23, for l coefficients.
// The rules of check_matrix, over coefficients: with the test as a parameter it would be longer.
#[tactic(auto, unfolding(ground::specs::Answers::first))]
pub fn check_coefficients(l: usize, a: [u8; STRIDE]) -> Result<(), Refusal>
    ensures { number_of result ≡ first (coefficient_rules l (coefficients a)) }
{
    demand(size_allowed(l), Refusal::SetNotAllowed)?;
    demand(coefficients_allowed(l, a), Refusal::AboveFifteen)
}
