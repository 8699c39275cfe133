// Key generation (page 01, "Keys, signing, verdict"; document 000, Algorithm 9): P22 = T12ᵗ·F12 + P21·T12 of every i, packed; parts.rt regroups it.
// `generate` is the public function. What it promises is `Generates` of specs/Generates.antt.
#![tactic(auto)]

mod elements;
mod parts;

ghost use Rattle.std.specs.Prelude.{◌≡◌, length};
ghost use Rattle.sets.specs.Numbers.{numbers};
ghost use Rattle.sets.specs.Sets.{public_bytes, private_bytes, key_bytes};
ghost use Rattle.scheme.specs.Maps.{key_of};
ghost use Rattle.keys.specs.Generates.{Generates};

use elements::{clear_spare, write_elements};
use ground::Refusal;
use sets::{AllowedSet, KEY_ROOM, POWERS_ROOM, PRIVATE_ROOM, Set};

// Writes the key of a public and a private stream, whole. 10: the set; 11, 13, 20: the length of the public stream, the private stream, the key.
// A refusal leaves the key as it was.
#[tactic(auto, unfolding(scheme::specs::Refusals::keygen_refusals))]
pub fn generate(set: Set, public: &[u8], private: &[u8], key: &mut [u8]) -> Result<(), Refusal>
    ensures { Generates set public.now private.now key.old result key.new }
{
    refusals::keygen_refusal(set, public.len(), private.len(), key.len())?;
    let set = AllowedSet::new(set)?;
    write_key(key, set, public, private);
    Ok(())
}

// Writes the whole key: P22 of every i, and zero in the spare half. The tables are those of the powers of S, T12, F21 and P22, for the largest set.
fn write_key(key: &mut [u8], set: AllowedSet, public: &[u8], private: &[u8])
    requires public_len { (length public.now ≡ public_bytes (numbers set)) × (length private.now ≡ private_bytes (numbers set)) × (length key.old ≡ key_bytes (numbers set)) }
    ensures { key.new ≡ key_of (numbers set) public.now private.now }
{
    let mut sp = [0u8; POWERS_ROOM];
    let mut t = [0u8; PRIVATE_ROOM];
    let mut f = [0u8; PRIVATE_ROOM];
    let mut k = [0u8; KEY_ROOM];
    tables::powers_of_s(&mut sp, set.l);
    tables::private_table(&mut t, set, private, &sp);
    write_elements(key, set, public, &t, &mut f, &mut k);
    clear_spare(key, set);
}
