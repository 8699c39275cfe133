// The terms of an equation of the public or the central map, evaluated from a table of power sums: such a table grows by one j (`sums`), what stands between A and B is
// gathered from it (`gathering`), and an equation is the sum of its terms (`equation`). The public map and signing stand on these, and their proofs show what is asked here.
#![tactic(auto)]

mod equation;
mod gathering;
mod sums;

pub use equation::{equation_block, term_block};
pub use gathering::gathered_block;
pub use sums::add_power_sum;
