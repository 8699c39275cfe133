// The sums over j that the linear system is made from: for each public matrix and each power of S, from the vinegar.
// Left sums and right sums have the private matrix in them already, so F12 and F21 are not stored; the power sums are those of the vinegar alone.
#![tactic(auto)]

mod left;
mod products;
mod right;

pub use left::fill_left;
pub use right::fill_right;
