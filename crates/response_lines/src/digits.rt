// Digits, and a whole hexadecimal value decoded into a lent output.
ghost use Rattle.std.specs.Prelude.{◌≡◌, ◌+◌, ◌*◌, ◌%◌, length};
ghost use Rattle.ground.specs.Answers.{first, number_of};
ghost use Rattle.ground.specs.Fill.{tab};
ghost use Rattle.response_format.specs.Fields.{digit_of};
ghost use Rattle.response_format.specs.Rules.{all_digits, paired};
ghost use Rattle.response_format.specs.Lent.{decode_rules, Decodes};
ghost use Rattle.response_format.specs.Decode.{pair_at};

use ground::{Refusal, demand};

// The digit's value, 16 for a byte that is no digit; below 10 for a decimal digit.
#[tactic(auto, unfolding(response_format::specs::Fields::digit_of))]
pub fn digit(byte: u8) -> u8
    ensures { result ≡ digit_of byte }
{
    match byte {
        b'0'..=b'9' => byte - b'0',
        b'A'..=b'F' => byte - b'A' + 10,
        b'a'..=b'f' => byte - b'a' + 10,
        _ => 16,
    }
}

// By the library's test, and not by `digit`: a branch for each range costs much where digits of both cases are mixed.
fn all_digits(digits: &[u8]) -> bool
    ensures { result ≡ all_digits 16 digits.now }
{
    digits.iter().all(|x| x.is_ascii_hexdigit())
}

// The digits make pairs.
#[tactic(auto, using(crate::proofs::Decoding::even_pairs))]
fn paired(digits: &[u8]) -> bool
    ensures { result ≡ paired digits.now }
{
    digits.len() % 2 == 0
}

// The first refusal that applies to a call of decode.
#[tactic(auto, unfolding(ground::specs::Answers::first, response_format::specs::Lent::decode_rules))]
fn check_decode(digits: &[u8], out: &[u8]) -> Result<(), Refusal>
    ensures { number_of result ≡ first (decode_rules digits.now out.now) }
{
    demand(all_digits(digits), Refusal::NotADigit)?;
    demand(paired(digits), Refusal::OddDigits)?;
    demand(out.len() == digits.len() / 2, Refusal::OutputLength)
}

fn pair(high: u8, low: u8) -> u8
    ensures { result ≡ digit_of high % 16 * 16 + digit_of low % 16 }
{
    digit(high) % 16 * 16 + digit(low) % 16
}

fn decode_all(digits: &[u8], out: &mut [u8])
    requires { length digits.now ≡ length out.old * 2 }
    ensures { out.new ≡ tab (length out.old) (pair_at digits.now) }
{
    for k in 0..out.len() {
        out[k] = pair(digits[k * 2], digits[k * 2 + 1]);
    }
}

// Decodes a whole hexadecimal value. 32: not a digit; 31: an odd count; 20: an output of another length.
// Like packing's pack, the check and then the work: no plainer.
#[tactic(auto, using(crate::proofs::Decoding::decode_fits, crate::proofs::Decoding::decode_done, crate::proofs::Decoding::decode_refused))]
pub fn decode(digits: &[u8], out: &mut [u8]) -> Result<(), Refusal>
    ensures { Decodes digits.now out.old result out.new }
{
    check_decode(digits, out)?;
    decode_all(digits, out);
    Ok(())
}
