// SNOVA_SHAKE, the expansion of the public seed: SHAKE128 of the seed and a block number, 168 bytes a block.
ghost use Rattle.std.specs.Prelude.{◌≡◌, length};
ghost use Rattle.seeds.specs.Seeds.{block as block_of, expanded};

use shake::RATE_128;

// Block `number`.
fn block(seed: &[u8], number: u64) -> [u8; RATE_128]
    ensures { result ≡ block_of seed.now number }
{
    let s = shake::absorb(shake::fresh(), RATE_128, seed);
    let t = shake::absorb(s, RATE_128, &number.to_le_bytes());
    let mut bytes = [0u8; RATE_128];
    shake::extract(t, RATE_128, &mut bytes);
    bytes
}

// out becomes the bytes of the seed's run from byte `start` on.
pub fn expand(seed: &[u8], start: usize, out: &mut [u8])
    ensures { out.new ≡ expanded seed.now start (length out.old) }
{
    let mut number = start / RATE_128;
    let mut skip = start % RATE_128;
    let mut at = 0;
    // `while`, since the first and the last block give fewer bytes than the others
    while at < out.len() {
        let bytes = block(seed, number as u64);
        let n = (RATE_128 - skip).min(out.len() - at);
        out[at..at + n].copy_from_slice(&bytes[skip..skip + n]);
        at += n;
        number += 1;
        skip = 0;
    }
}
