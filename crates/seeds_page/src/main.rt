// The streams of two seeds, run: the public stream over three blocks, ABQ from the letters and behind the public stream, private, target, and vinegar of two tries.
// What is printed was compared with an outside program's answers.
#![tactic(auto)]

use sets::Set;
use std::io;

const PUBLIC_SEED: [u8; 16] = [0, 1, 2, 3, 4, 5, 6, 7, 8, 9, 10, 11, 12, 13, 14, 15];

const PRIVATE_SEED: [u8; 32] = [0x11; 32];

const DIGEST: [u8; 64] = [0xd1; 64];

const SALT: [u8; 16] = [0x5a; 16];

// What is shown, then the bytes in hexadecimal, 32 to a line.
fn show(rt: &impl Print, asked: &str, bytes: &[u8]) -> io::Result<()> {
    println!(rt; "{asked}")?;
    for line in bytes.chunks(32) {
        for x in line {
            print!(rt; "{x:02x}")?;
        }
        println!(rt)?;
    }
    Ok(())
}

fn public(rt: &impl Print, seed: &[u8], out: &mut [u8]) -> io::Result<()> {
    seeds::public_stream(seed, out);
    show(rt, "public stream, 400 bytes", out)
}

fn abq(rt: &impl Print, asked: &str, set: Set, seed: &[u8], out: &mut [u8]) -> io::Result<()> {
    seeds::abq_stream(set, seed, out);
    show(rt, asked, out)
}

// The other stream of the page, like public: no plainer.
fn private(rt: &impl Print, seed: &[u8], out: &mut [u8]) -> io::Result<()> {
    seeds::private_stream(seed, out);
    show(rt, "private stream, 150 bytes", out)
}

fn target(
    rt: &impl Print,
    seed: &[u8],
    digest: &[u8],
    salt: &[u8],
    out: &mut [u8],
) -> io::Result<()> {
    seeds::target_stream(seed, digest, salt, out);
    show(rt, "target stream, 40 bytes", out)
}

fn vinegar(rt: &impl Print, asked: &str, attempt: u8, out: &mut [u8]) -> io::Result<()> {
    let seed = PRIVATE_SEED;
    let digest = DIGEST;
    let salt = SALT;
    seeds::vinegar_stream(&seed, &digest, &salt, attempt, out);
    show(rt, asked, out)
}

fn abq_of(rt: &impl Print, asked: &str, v: usize, o: usize, l: usize) -> io::Result<()> {
    let seed = PUBLIC_SEED;
    abq(rt, asked, Set { v, o, l }, &seed, &mut [0; 200])
}

fn main(rt: HostRuntime) -> io::Result<()> {
    let seed = PUBLIC_SEED;
    public(&rt, &seed, &mut [0; 400])?;
    abq_of(&rt, "ABQ stream of (37,17,2), 200 bytes", 37, 17, 2)?;
    abq_of(&rt, "ABQ stream of (25,8,3), 200 bytes", 25, 8, 3)?;
    abq_of(&rt, "ABQ stream of (24,5,4), 200 bytes", 24, 5, 4)?;
    abq_of(&rt, "ABQ stream of (60,10,4), 200 bytes", 60, 10, 4)?;
    abq_of(
        &rt,
        "ABQ stream of (33,33,4), which is not allowed, 200 bytes",
        33,
        33,
        4,
    )?;
    private(&rt, &PRIVATE_SEED, &mut [0; 150])?;
    target(&rt, &seed, &DIGEST, &SALT, &mut [0; 40])?;
    vinegar(&rt, "vinegar stream of try 1, 192 bytes", 1, &mut [0; 192])?;
    vinegar(
        &rt,
        "vinegar stream of try 255, 192 bytes",
        255,
        &mut [0; 192],
    )
}
