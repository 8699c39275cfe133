// The streams that the two seeds define, each into a lent buffer: as many of its first bytes as the buffer holds.
// What is hashed stands in pieces and is absorbed piece by piece: no buffer holds the whole.
#![tactic(auto)]

mod expansion;

ghost use Rattle.std.specs.Prelude.{◌≡◌, length};
ghost use Rattle.ground.specs.Pick.{pick};
ghost use Rattle.sets.specs.Sets.{allowed_set};
ghost use Rattle.shake.specs.Sponge.{shake256 as shake256_of};
ghost use Rattle.shake.specs.Feed.{Ready};
ghost use Rattle.shake.specs.FeedLaws.{Holds};
ghost use Rattle.seeds.specs.Seeds.{expanded, abq_first, target_message, vinegar_message};

pub use expansion::expand;
use sets::Set;
use shake::{RATE_256, Sponge};

// Up to this l the ABQ stream is made from a fixed string.
const FIXED_L: usize = 3;

// The public stream.
pub fn public_stream(seed: &[u8], out: &mut [u8])
    ensures { out.new ≡ expanded seed.now 0 (length out.old) }
{
    expand(seed, 0, out);
}

// The ABQ stream; nothing is written for a set that is not allowed.
pub fn abq_stream(set: Set, seed: &[u8], out: &mut [u8])
    ensures { out.new ≡ pick (allowed_set set) (abq_first set seed.now (length out.old)) out.old }
{
    if sets::allowed(set) {
        if set.l <= FIXED_L {
            shake::shake256(b"SNOVA_ABQ", out);
        } else {
            let start = sets::public_bytes(set);
            expand(seed, start, out);
        }
    }
}

// The private stream.
pub fn private_stream(seed: &[u8], out: &mut [u8])
    ensures { out.new ≡ shake256_of seed.now (length out.old) }
{
    shake::shake256(seed, out);
}

// The sponge that took a seed, the digest and the salt.
fn message(seed: &[u8], digest: &[u8], salt: &[u8]) -> Sponge
    ensures { Ready RATE_256 result × Holds RATE_256 (target_message seed.now digest.now salt.now) result }
{
    let s = shake::absorb(shake::fresh(), RATE_256, seed);
    let t = shake::absorb(s, RATE_256, digest);
    shake::absorb(t, RATE_256, salt)
}

// The target: of the public seed, the digest and the salt.
pub fn target_stream(seed: &[u8], digest: &[u8], salt: &[u8], out: &mut [u8])
    ensures { out.new ≡ shake256_of (target_message seed.now digest.now salt.now) (length out.old) }
{
    shake::extract(message(seed, digest, salt), RATE_256, out);
}

// The vinegar: of the private seed, the digest, the salt and the number of the try.
pub fn vinegar_stream(seed: &[u8], digest: &[u8], salt: &[u8], attempt: u8, out: &mut [u8])
    ensures { out.new ≡ shake256_of (vinegar_message seed.now digest.now salt.now attempt) (length out.old) }
{
    let s = message(seed, digest, salt);
    let t = shake::absorb(s, RATE_256, &[attempt]);
    shake::extract(t, RATE_256, out);
}
