// GF(16): polynomials over GF(2) modulo x⁴ + x + 1, an element to a byte. Sums are exclusive or; products read their factors modulo 16, so no caller owes a bound.
// No table: a `const` array is copied at each look-up, and this arithmetic is vectorised where it stands in a loop.
#![tactic(auto)]

ghost use Rattle.std.specs.Prelude.{◌≡◌, ◌*◌, ◌%◌};
ghost use Rattle.field.specs.Field.{add as sum, mul as product, inverse as inverse_of, power as power_of, chosen_of};

// a + b: exclusive or.
pub fn add(a: u8, b: u8) -> u8
    ensures { result ≡ sum a b }
{
    a ^ b
}

// x · a.
pub fn twice(a: u8) -> u8
    ensures { result ≡ product 2 a }
{
    let x = a % 16;
    (x * 2 % 16) ^ (x / 8 * 3)
}

// x where b has the coefficient of 1, else 0. As a product, x * (b % 2), it would be compiled to a branch that is often mispredicted.
fn low_chosen(x: u8, b: u8) -> u8
    ensures { result ≡ x * (b % 2) }
{
    if b % 2 == 0 { 0 } else { x }
}

// The sum of those of x1, x2, x4, x8 whose coefficient b has.
pub fn chosen(x1: u8, x2: u8, x4: u8, x8: u8, b: u8) -> u8
    ensures { result ≡ chosen_of x1 x2 x4 x8 b }
{
    low_chosen(x1, b) ^ ((x2 * (b / 2 % 2)) ^ ((x4 * (b / 4 % 2)) ^ (x8 * (b / 8 % 2))))
}

// a · b: the multiples of a by 1, x, x², x³, those chosen that b has.
pub fn mul(a: u8, b: u8) -> u8
    ensures { result ≡ product a b }
{
    let a1 = a % 16;
    let a2 = twice(a1);
    let a4 = twice(a2);
    let a8 = twice(a4);
    chosen(a1, a2, a4, a8, b)
}

// a to the k, by halves: the square of the power at k / 2, times a where k is odd.
pub fn power(a: u8, k: u8) -> u8
    ensures { result ≡ power_of a k }
{
    if k == 0 {
        return 1;
    }
    let half = power(a, k / 2);
    let square = mul(half, half);
    if k % 2 == 1 {
        return mul(square, a);
    }
    square
}

// The element whose product with a is 1; 0 for 0. It is the fourteenth power.
pub fn inverse(a: u8) -> u8
    ensures { result ≡ inverse_of a }
{
    power(a, 14)
}
