// Runs page 01's examples on matrices and writes what comes out, one example to a line; the file `stdout` has what page 01 says.
// A line of an algorithm has the answer's number first and then the four entries, row by row.
#![tactic(auto)]

use ground::Refusal;
use matrix::{BYTES, Block, determinant_of, make_invertible, ring_element, s_power};
use std::io;

// Writes a number, after a space.
fn put(rt: &impl Print, n: u32) -> io::Result<()> {
    print!(rt; " {n}")
}

// Writes four elements, and ends the line.
fn put_four(rt: &impl Print, elements: [u8; 4]) -> io::Result<()> {
    for x in elements {
        put(rt, u32::from(x))?;
    }
    println!(rt)
}

// Writes the four entries of a 2 by 2 matrix, row by row.
fn put_two(rt: &impl Print, m: [u8; 25]) -> io::Result<()> {
    put_four(rt, [m[0], m[1], m[5], m[6]])
}

// Writes an answer's number and the 2 by 2 matrix that was made, or zeros beside a refusal.
fn put_made(rt: &impl Print, made: Result<Block, Refusal>) -> io::Result<()> {
    match made {
        Ok(block) => {
            put(rt, 0)?;
            put_two(rt, block)
        }
        Err(refusal) => {
            put(rt, u32::from(refusal))?;
            put_two(rt, [0; BYTES])
        }
    }
}

// Writes a determinant, or a refusal's number.
fn put_value(rt: &impl Print, value: Result<u8, Refusal>) -> io::Result<()> {
    match value {
        Ok(x) => put(rt, u32::from(x))?,
        Err(refusal) => put(rt, u32::from(refusal))?,
    }
    println!(rt)
}

// The 2 by 2 matrix of four entries.
fn two(a: u8, b: u8, c: u8, d: u8) -> [u8; 25] {
    let mut m = [0; 25];
    m[0] = a;
    m[1] = b;
    m[5] = c;
    m[6] = d;
    m
}

// S, its square and its determinant.
fn powers(rt: &impl Print) -> io::Result<()> {
    print!(rt; "S, l = 2:")?;
    put_two(rt, s_power(2, 1))?;
    print!(rt; "S squared, l = 2:")?;
    put_two(rt, s_power(2, 2))?;
    print!(rt; "determinant of S, l = 2:")?;
    put_value(rt, determinant_of(2, s_power(2, 1)))
}

fn first_row(rt: &impl Print) -> io::Result<()> {
    let square = s_power(4, 2);
    print!(rt; "first row of S squared, l = 4:")?;
    put_four(rt, [square[0], square[1], square[2], square[3]])
}

// Algorithm 1 at the coefficients (a, 0).
fn element(rt: &impl Print, text: &str, l: usize, a: u8) -> io::Result<()> {
    print!(rt; "{text}")?;
    put_made(rt, ring_element(l, [a, 0, 0, 0, 0]))
}

// Algorithm 2 of the matrix (a b; b c).
fn shifted(rt: &impl Print, text: &str, l: usize, a: u8, b: u8, c: u8) -> io::Result<()> {
    print!(rt; "{text}")?;
    put_made(rt, make_invertible(l, two(a, b, b, c)))
}

fn elements(rt: &impl Print) -> io::Result<()> {
    element(rt, "Algorithm 1 of (0, 0):", 2, 0)?;
    element(rt, "Algorithm 1 of (3, 0):", 2, 3)?;
    element(rt, "Algorithm 1 of (15, 0):", 2, 15)?;
    element(rt, "Algorithm 1 of (16, 0):", 2, 16)?;
    element(rt, "Algorithm 1, l = 1:", 1, 16)
}

fn shifts(rt: &impl Print) -> io::Result<()> {
    shifted(rt, "Algorithm 2 of (0 0; 0 0):", 2, 0, 0, 0)?;
    shifted(rt, "Algorithm 2 of (9 0; 0 0):", 2, 9, 0, 0)?;
    shifted(rt, "Algorithm 2 of (8 7; 7 6):", 2, 8, 7, 6)?;
    shifted(rt, "Algorithm 2 of (0 0; 0 16):", 2, 0, 0, 16)?;
    shifted(rt, "Algorithm 2, l = 5:", 5, 0, 0, 16)
}

fn main(rt: HostRuntime) -> io::Result<()> {
    powers(&rt)?;
    first_row(&rt)?;
    elements(&rt)?;
    shifts(&rt)
}
