// Page 02's reader of response files. Each export calls the function of `snova` with the same name, and promises what it promises.
ghost use Rattle.std.specs.Prelude.{◌≡◌};
ghost use Rattle.response_format.specs.Rules.{refusal_of};
ghost use Rattle.snova.specs.Responses.{DecodeHex};

// A hexadecimal value decoded: 0, 32, 31 or 20.
#[unsafe(no_mangle)]
pub extern "C" fn snova_decode_hex(digits: &[u8], bytes: &mut [u8]) -> u32
    ensures { DecodeHex digits.now bytes.old result bytes.new }
{
    snova::snova_decode_hex(digits, bytes)
}

// A whole response file: 0 where it is of the format, or its refusal, 30 to 34.
#[unsafe(no_mangle)]
pub extern "C" fn snova_responses(file: &[u8]) -> u32
    ensures { result ≡ refusal_of file.now }
{
    snova::snova_responses(file)
}
