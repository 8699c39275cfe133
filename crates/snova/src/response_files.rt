// The functions of response files for the C interface (page 02, Req 01): each by the page's number, over lent buffers.
// Alike in form to the other calls: the C interface.
ghost use Rattle.std.specs.Prelude.{◌≡◌};
ghost use Rattle.response_format.specs.Rules.{refusal_of};
ghost use Rattle.snova.specs.Responses.{DecodeHex};

// A hexadecimal value decoded: 0, 32, 31 or 20.
pub fn snova_decode_hex(digits: &[u8], bytes: &mut [u8]) -> u32
    ensures { DecodeHex digits.now bytes.old result bytes.new }
{
    ground::number(responses::decode(digits, bytes))
}

// A whole response file: 0 where it is of the format, or its refusal, 30 to 34.
pub fn snova_responses(file: &[u8]) -> u32
    ensures { result ≡ refusal_of file.now }
{
    ground::number(responses::refusal(file))
}
