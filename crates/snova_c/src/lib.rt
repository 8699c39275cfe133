// The static library: each function of `snova`, exported to C under its name with its contract. libsnova.a has these functions and no others.
#![tactic(auto)]

mod book_calls;
mod interface;
mod length_calls;
mod response_files;
