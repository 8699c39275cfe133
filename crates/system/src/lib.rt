// The linear system that signing solves (document 000, Algorithms 12 to 14), made from the sums over j (crate partial_sums).
#![tactic(auto)]

mod blocks;
mod equation;
mod sides;

pub use equation::build;
