// SHAKE128 and SHAKE256 of FIPS 202. A sponge takes a message in any number of pieces, without a buffer for the whole, and gives any number of bytes.
// `shake128` and `shake256` are for everybody. `fresh`, `absorb` and `extract` are for our own crates, which hash a message that stands in pieces.
#![tactic(auto)]

ghost use Rattle.std.specs.Prelude.{◌≡◌, ◌+◌, ◌<◌, ◌≤◌, length};
ghost use Rattle.ground.specs.Fill.{tab};
ghost use Rattle.ground.specs.Segment.{Segment};
ghost use Rattle.shake.specs.Sponge.{lane_byte, add_byte, squeezed, shake as shake_of, shake128 as shake128_of, shake256 as shake256_of};
ghost use Rattle.shake.specs.Feed.{Rate, Fresh, Ready, Fed, finished, output};

// A block's bytes, for SHAKE128 and for SHAKE256.
pub const RATE_128: usize = 168;

pub const RATE_256: usize = 136;

// A state, and the place in its block of the message's next byte.
#[derive(Clone, Copy)]
pub struct Sponge {
    pub lanes: [u64; 25],
    pub at: usize,
}

// No byte taken yet.
// A struct of zeros, as other crates have theirs: no plainer.
pub fn fresh() -> Sponge
    ensures { Fresh result }
{
    Sponge {
        lanes: [0u64; 25],
        at: 0,
    }
}

// Byte p of a state gains b.
fn add_byte(lanes: &mut [u64; 25], p: usize, b: u8)
    requires { p < 200 }
    ensures { lanes.new ≡ add_byte lanes.old p b }
{
    lanes[p / 8] ^= u64::from(b) << (8 * (p % 8));
}

// out[from..from + n] become the first n bytes of a lane.
fn put_bytes(out: &mut [u8], from: usize, w: u64, n: usize)
    requires { (from + n ≤ length out.old) × (n ≤ 8) }
    ensures { Segment out.old from n (lane_byte w) out.new }
{
    out[from..from + n].copy_from_slice(&w.to_le_bytes()[..n]);
}

// The message goes on with the input's bytes.
pub fn absorb(s: Sponge, rate: usize, input: &[u8]) -> Sponge
    requires { Ready rate s }
    ensures { Fed rate s input.now result }
{
    let mut lanes = s.lanes;
    let mut at = s.at;
    for byte in input {
        add_byte(&mut lanes, at, *byte);
        at += 1;
        if at == rate {
            lanes = keccak::permute(lanes);
            at = 0;
        }
    }
    Sponge { lanes, at }
}

// The message is at its end: the last block is padded and absorbed.
fn finish(s: Sponge, rate: usize) -> [u64; 25]
    requires { Ready rate s }
    ensures { result ≡ finished rate s }
{
    let mut lanes = s.lanes;
    let at = s.at;
    if at + 1 == rate {
        add_byte(&mut lanes, at, 0x9f);
        return keccak::permute(lanes);
    }
    add_byte(&mut lanes, at, 0x1f);
    add_byte(&mut lanes, rate - 1, 0x80);
    keccak::permute(lanes)
}

// The output's first bytes, lane by lane. By the number of the part and not over `out.chunks_mut(8)`: the check knows no byte of what that lent.
fn squeeze(s: [u64; 25], rate: usize, out: &mut [u8])
    requires { Rate rate }
    ensures { out.new ≡ tab (length out.old) (squeezed rate s) }
{
    let mut lanes = s;
    let mut at = 0;
    for part in 0..out.len().div_ceil(8) {
        if at == rate {
            lanes = keccak::permute(lanes);
            at = 0;
        }
        let k = 8 * part;
        let n = (out.len() - k).min(8);
        put_bytes(out, k, lanes[at / 8], n);
        at += 8;
    }
}

// The message is at its end: the output's first bytes.
pub fn extract(s: Sponge, rate: usize, out: &mut [u8])
    requires { Ready rate s }
    ensures { out.new ≡ output rate s (length out.old) }
{
    squeeze(finish(s, rate), rate, out);
}

// The first bytes of the output for the input.
fn shake(rate: usize, input: &[u8], out: &mut [u8])
    requires { Rate rate }
    ensures { out.new ≡ shake_of rate input.now (length out.old) }
{
    extract(absorb(fresh(), rate, input), rate, out);
}

// The first bytes of SHAKE128 of the input.
pub fn shake128(input: &[u8], out: &mut [u8])
    ensures { out.new ≡ shake128_of input.now (length out.old) }
{
    shake(RATE_128, input, out);
}

// The first bytes of SHAKE256 of the input.
// The standard's other function, in one line as shake128 is: no plainer.
pub fn shake256(input: &[u8], out: &mut [u8])
    ensures { out.new ≡ shake256_of input.now (length out.old) }
{
    shake(RATE_256, input, out);
}
