// Writes, for each element a, the powers by halves that lead to its inverse: 14 halves to 7, to 3, to 1. So from a: its square, times a; that squared, times a; that squared.
#![tactic(auto)]

use field::{inverse, power};
use std::io;

// Writes a text, and an element after it.
fn put(rt: &impl Print, text: &str, x: u8) -> io::Result<()> {
    print!(rt; "{text}{x}")
}

// The line of one element: its powers in the order in which the recursion meets them, and the inverse.
fn line(rt: &impl Print, a: u8) -> io::Result<()> {
    put(rt, "a = ", power(a, 1))?;
    put(rt, ": a^2 = ", power(a, 2))?;
    put(rt, ", a^3 = ", power(a, 3))?;
    put(rt, ", a^6 = ", power(a, 6))?;
    put(rt, ", a^7 = ", power(a, 7))?;
    put(rt, ", a^14 = ", power(a, 14))?;
    put(rt, "; inverse ", inverse(a))?;
    println!(rt)
}

fn main(rt: HostRuntime) -> io::Result<()> {
    for a in 0..16u8 {
        line(&rt, a)?;
    }
    Ok(())
}
