// l by l matrices over GF(16): a block of bytes holds a matrix, and its size l goes beside it.
// Elements of F16[S] by Algorithm 1, determinants, and matrices made invertible by Algorithm 2.
// The three functions of this file are for everybody: they ask nothing of the caller and refuse what they cannot take.
// What the modules offer is for our own crates: some of it has conditions, which the callers' proofs show.
#![tactic(auto)]

mod arithmetic;
mod blocks;
mod determinants;
mod invertible;
mod refusals;
mod ring;

ghost use Rattle.matrix.specs.Promises.{RingElement, MadeInvertible, DeterminantOf};

pub use arithmetic::{plus, product, scaled, transposed};
pub use blocks::{BYTES, Block, STRIDE, entry, filled, within};
pub use determinants::determinant;
use ground::Refusal;
use invertible::search;
use refusals::{check_coefficients, check_matrix};
pub use ring::{coefficient, combination, last_coefficient, one, s_matrix, s_power};

// Algorithm 1: the element of F16[S] that the first l of the coefficients give. 10: a size outside the limits; 23: a coefficient above 15.
pub fn ring_element(l: usize, a: [u8; STRIDE]) -> Result<Block, Refusal>
    ensures { RingElement l a result }
{
    check_coefficients(l, a)?;
    Ok(combination(l, a))
}

// Algorithm 2: the matrix where its determinant is not 0, else the first shift of it by a multiple of S whose determinant is not.
// 10: a size outside the limits; 23: an entry above 15; 21: no shift serves.
pub fn make_invertible(l: usize, m: Block) -> Result<Block, Refusal>
    ensures { MadeInvertible l m result }
{
    check_matrix(l, m)?;
    search(l, m)
}

// The determinant. 10: a size outside the limits; 23: an entry above 15.
// Like ring_element, the check and then the value: no plainer.
pub fn determinant_of(l: usize, m: Block) -> Result<u8, Refusal>
    ensures { DeterminantOf l m result }
{
    check_matrix(l, m)?;
    Ok(determinant(l, m))
}
