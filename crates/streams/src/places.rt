// Where the parts of term (i, alpha) stand: the numbers of its blocks and groups in the ABQ stream, and the index of its public matrix.
// A formula of page 01 each, alike in form: no plainer.
ghost use Rattle.std.specs.Prelude.{◌≡◌};
ghost use Rattle.scheme.specs.Streams.{a_number, b_number, q1_number, q2_number};
ghost use Rattle.scheme.specs.Maps.{matrix_index};
ghost use Rattle.streams.specs.TermPlaces.{TermPlace};

use sets::{AllowedSet, Set};

// The block number of A.
pub fn a_number(set: Set, i: usize, alpha: usize) -> usize
    requires { TermPlace set i alpha }
    ensures { result ≡ a_number set i alpha }
{
    i * sets::terms(AllowedSet::known(set)) + alpha
}

// The block number of B: all B stand behind all A.
pub fn b_number(set: Set, i: usize, alpha: usize) -> usize
    requires { TermPlace set i alpha }
    ensures { result ≡ b_number set i alpha }
{
    sets::all_terms(AllowedSet::known(set)) + a_number(set, i, alpha)
}

// The group number of Q1's coefficients, which stand behind all blocks: a block is l groups long.
pub fn q1_number(set: Set, i: usize, alpha: usize) -> usize
    requires { TermPlace set i alpha }
    ensures { result ≡ q1_number set i alpha }
{
    2 * sets::all_terms(AllowedSet::known(set)) * set.l + a_number(set, i, alpha)
}

// The group number of Q2's coefficients, behind those of all Q1.
pub fn q2_number(set: Set, i: usize, alpha: usize) -> usize
    requires { TermPlace set i alpha }
    ensures { result ≡ q2_number set i alpha }
{
    sets::all_terms(AllowedSet::known(set)) + q1_number(set, i, alpha)
}

// The index of the public matrix that term alpha of equation i uses: not i (students' error 1).
pub fn matrix_index(set: Set, i: usize, alpha: usize) -> usize
    requires { TermPlace set i alpha }
    ensures { result ≡ matrix_index set i alpha }
{
    (i + alpha) % set.o
}
