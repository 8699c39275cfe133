// Algorithm 2: a matrix with nonzero determinant stays; otherwise M + a·S for the first a from 1 to 15 that gives a nonzero determinant, always from the original M.
ghost use Rattle.std.specs.Prelude.{◌≡◌, ◌≤◌, ◌<◌};
ghost use Rattle.ground.specs.Pick.{pick};
ghost use Rattle.matrix.specs.Block.{view, block, stride};
ghost use Rattle.matrix.specs.Invertible.{shift, can_be_invertible, algorithm2};
ghost use Rattle.matrix.specs.Promises.{Makes};
ghost use Rattle.matrix.specs.Trial.{NextTrial};

use super::arithmetic::{plus, scaled};
use super::blocks::{Block, cut};
use super::determinants::determinant;
use super::ring::s_matrix;
use ground::Refusal;

// m + a·S.
pub fn shifted(l: usize, m: Block, a: u8) -> Block
    requires { l ≤ stride }
    ensures { result ≡ block l (shift l (view m) a) }
{
    plus(l, m, scaled(l, a, s_matrix(l)))
}

// One try of the search: the original matrix, the shift a, and the original plus a·S.
#[derive(Clone, Copy)]
pub struct Trial {
    original: Block,
    a: u8,
    tried: Block,
}

// The next try. It shifts the original by one more, never what was tried before (students' error 3).
fn next_trial(l: usize, trial: Trial) -> Trial
    requires { (l ≤ stride) × (trial.a < 15) }
    ensures { NextTrial l trial result }
{
    let original = trial.original;
    let a = trial.a + 1;
    let tried = shifted(l, original, a);
    Trial { original, a, tried }
}

// The search of Algorithm 2, from a = 1 on.
pub fn search(l: usize, m: Block) -> Result<Block, Refusal>
    requires { l ≤ stride }
    ensures { Makes (pick (can_be_invertible l (view m)) 0 21) (block l (algorithm2 l (view m))) result }
{
    if determinant(l, m) != 0 {
        return Ok(cut(l, m));
    }
    let first = shifted(l, m, 1);
    let mut trial = Trial {
        original: m,
        a: 1,
        tried: first,
    };
    // `loop`, the form that page 01 names for Algorithm 2
    let found = loop {
        let tried = trial.tried;
        if determinant(l, tried) != 0 {
            break tried;
        }
        if trial.a == 15 {
            return Err(Refusal::NotInvertible);
        }
        let next = next_trial(l, trial);
        trial = next;
    };
    Ok(found)
}
