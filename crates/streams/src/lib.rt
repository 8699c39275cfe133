// Reading the packed streams: to the code what scheme's Streams is to the meaning. The numbers of blocks of P
// (`numbers`) and of the parts of a term (`places`) stand here and nowhere else. Blocks are read (`blocks`), or laid out element after element (`laid`); coefficients go by Algorithm 1's rule
// (`coefficients`); and `read_term` gathers what term (i, alpha) of an equation needs.
#![tactic(auto)]

mod blocks;
mod coefficients;
mod laid;
mod numbers;
mod places;
mod reading;

pub use blocks::{invertible_at, read_block};
pub use coefficients::{coefficient_at, coefficients_of};
pub use laid::lay_blocks;
use matrix::{Block, STRIDE};
pub use numbers::{p11_number, p12_number, p21_number, p22_number};
pub use places::{a_number, b_number, matrix_index, q1_number, q2_number};
pub use reading::read_term;

// The parts of a term of an equation: A and B, which Algorithm 2 has made invertible, the coefficients of Q1 and Q2 with zeros behind them, and the index of its matrix P.
#[derive(Clone, Copy)]
pub struct Term {
    pub a: Block,
    pub b: Block,
    pub q1: [u8; STRIDE],
    pub q2: [u8; STRIDE],
    pub index: usize,
}
