// A block holds a matrix: STRIDE rows of STRIDE bytes for every l; bytes outside l are 0. The row stride and the size stand here alone (specs/Block.antt has the same).
ghost use Rattle.std.specs.Prelude.{◌≡◌, ℕ, ◌<◌};
ghost use Rattle.ground.specs.Pick.{pick};
ghost use Rattle.matrix.specs.Matrix.{Matrix};
ghost use Rattle.matrix.specs.Block.{view, block, stride};
ghost use Rattle.matrix.specs.Block.{inside as is_inside};
ghost use Rattle.matrix.specs.Promises.{no_block};

pub const STRIDE: usize = 5;

pub const BYTES: usize = STRIDE * STRIDE;

pub type Block = [u8; BYTES];

// The entry at row r, column c.
pub fn entry(m: Block, r: usize, c: usize) -> u8
    requires { (r < stride) × (c < stride) }
    ensures { result ≡ view m r c }
{
    m[r * STRIDE + c]
}

// Byte e of a block stands inside l.
pub fn inside(l: usize, e: usize) -> bool
    ensures { result ≡ is_inside l e }
{
    e / STRIDE < l && e % STRIDE < l
}

// x where byte e stands inside l, else 0.
// One select: no plainer.
pub fn within(l: usize, e: usize, x: u8) -> u8
    ensures { result ≡ pick (is_inside l e) x 0 }
{
    if inside(l, e) { x } else { 0 }
}

// The block of zeros.
pub fn no_block() -> Block
    ensures { result ≡ no_block }
{
    [0; BYTES]
}

// The block with f(r, c) at row r, column c inside l, and 0 outside.
pub fn filled<F: Fn(usize, usize) -> u8>(l: usize, f: F) -> Block
    requires { (r c : ℕ) → r < l → c < l → r < stride → c < stride → F.pre f r c }
    ensures { (M : Matrix) → ((r c x : ℕ) → r < l → c < l → r < stride → c < stride → F.post f r c x → x ≡ M r c) → result ≡ block l M }
{
    let mut out = [0; BYTES];
    for e in 0..BYTES {
        out[e] = if inside(l, e) {
            f(e / STRIDE, e % STRIDE)
        } else {
            0
        };
    }
    out
}

// The matrix that m holds inside l, with 0 outside.
pub fn cut(l: usize, m: Block) -> Block
    ensures { result ≡ block l (view m) }
{
    filled(l, |r, c| entry(m, r, c))
}
