// Block numbers (page 01, "Streams and their sizes"): the public stream has P11 of all i, then P12 of all i, then P21 of all i; the key has P22 of all i.
// Each function gives the first block of row j of matrix i, the row's other blocks follow it. Nobody else writes these products out.
// A formula of page 01 each, alike in form: no plainer.
ghost use Rattle.std.specs.Prelude.{◌<◌};
ghost use Rattle.sets.specs.Numbers.{numbers};
ghost use Rattle.scheme.specs.Streams.{p11_number, p12_number, p21_number, p22_number};
ghost use Rattle.streams.specs.Numbers.{public_blocks, key_blocks, Starts};

use sets::AllowedSet;

// P11: v rows of v blocks for each i.
pub fn p11_number(set: AllowedSet, i: usize, j: usize) -> usize
    requires { (i < set.o) × (j < set.v) }
    ensures { Starts (public_blocks (numbers set)) (p11_number (numbers set) i j 0) set.v result }
{
    (i * set.v + j) * set.v
}

// P12: v rows of o blocks for each i, behind P11 of all i.
pub fn p12_number(set: AllowedSet, i: usize, j: usize) -> usize
    requires { (i < set.o) × (j < set.v) }
    ensures { Starts (public_blocks (numbers set)) (p12_number (numbers set) i j 0) set.o result }
{
    set.o * (set.v * set.v) + (i * set.v + j) * set.o
}

// P21: o rows of v blocks for each i, behind P12 of all i.
pub fn p21_number(set: AllowedSet, i: usize, k: usize) -> usize
    requires { (i < set.o) × (k < set.o) }
    ensures { Starts (public_blocks (numbers set)) (p21_number (numbers set) i k 0) set.v result }
{
    set.o * (set.v * set.v) + set.o * (set.v * set.o) + (i * set.o + k) * set.v
}

// P22: o rows of o blocks for each i, in the key.
pub fn p22_number(set: AllowedSet, i: usize, k: usize) -> usize
    requires { (i < set.o) × (k < set.o) }
    ensures { Starts (key_blocks (numbers set)) (p22_number (numbers set) i k 0) set.o result }
{
    (i * set.o + k) * set.o
}
