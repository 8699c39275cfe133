// Signs page-sized cases of the sets (1,1,2) and (2,2,3), verifies what was signed under the generated key, and writes the numbers and the bytes.
// The streams are filled by a rule, so that anyone can make them again. Outputs start as EE: a redo shows that the signature was left alone.
#![tactic(auto)]

use sets::Set;
use std::io;

fn main(rt: HostRuntime) -> io::Result<()> {
    println!(rt; "| set | streams | signing | verdict | work area | signature |")?;
    println!(rt; "|---|---|---|---|---|---|")?;
    small(&rt, 1, true)?;
    small(&rt, 2, true)?;
    small(&rt, 1, false)?;
    larger(&rt, 1, true)?;
    larger(&rt, 2, true)?;
    larger(&rt, 1, false)
}

// A signature for (1,1,2) from the streams of a seed; without vinegar, that is with a vinegar stream of zeros, it is a redo.
fn small(rt: &impl Print, seed: u32, vinegar_too: bool) -> io::Result<()> {
    case(
        rt,
        "(1,1,2)",
        Set { v: 1, o: 1, l: 2 },
        seed,
        vinegar_too,
        &mut [0; 6],
        &mut [0; 36],
        &mut [0; 1],
        &mut [0; 2],
        &mut [0; 2],
        &mut [0xee; 2],
        &mut [0xee; 32],
        &mut [0xee; 20],
    )
}

// The same for (2,2,3).
// Beside `small`, since the arrays have the set's lengths.
fn larger(rt: &impl Print, seed: u32, vinegar_too: bool) -> io::Result<()> {
    case(
        rt,
        "(2,2,3)",
        Set { v: 2, o: 2, l: 3 },
        seed,
        vinegar_too,
        &mut [0; 108],
        &mut [0; 288],
        &mut [0; 6],
        &mut [0; 9],
        &mut [0; 9],
        &mut [0xee; 36],
        &mut [0xee; 450],
        &mut [0xee; 34],
    )
}

// Fills the streams, makes the key, signs, verifies, and writes one row of the table.
// `vinegar_too` is the one thing in which the rows of a set differ.
fn case(
    rt: &impl Print,
    name: &str,
    set: Set,
    seed: u32,
    vinegar_too: bool,
    public: &mut [u8],
    abq: &mut [u8],
    private: &mut [u8],
    vinegar: &mut [u8],
    target: &mut [u8],
    key: &mut [u8],
    work: &mut [u8],
    signature: &mut [u8],
) -> io::Result<()> {
    let salt = fill_streams(seed, vinegar_too, public, abq, private, vinegar, target);
    let _ = keys::generate(set, public, private, key); // a refusal shows: signing gives it too
    let answer = signing::sign(
        set, public, abq, private, vinegar, target, &salt, work, signature,
    );
    let verdict = verdict::verify(set, public, abq, target, key, signature);
    print!(rt; "| {name} | {seed}")?;
    if !vinegar_too {
        print!(rt; ", vinegar of zeros")?;
    }
    let signed = ground::number(answer);
    let verified = ground::number(verdict);
    row(rt, signed, verified, work, signature)
}

// The streams of a seed; without vinegar that stream stays zeros. The answer is the salt.
// `vinegar_too`, as in `case`: only one of six streams is left out.
fn fill_streams(
    seed: u32,
    vinegar_too: bool,
    public: &mut [u8],
    abq: &mut [u8],
    private: &mut [u8],
    vinegar: &mut [u8],
    target: &mut [u8],
) -> [u8; 16] {
    fill(public, seed, 1);
    fill(abq, seed, 2);
    fill(private, seed, 3);
    if vinegar_too {
        fill(vinegar, seed, 4);
    }
    fill(target, seed, 5);
    let mut salt = [0; 16];
    fill(&mut salt, seed, 6);
    salt
}

// The rest of a row: both numbers, whether the work area is zero, and the signature's bytes.
fn row(
    rt: &impl Print,
    signed: u32,
    verified: u32,
    work: &[u8],
    signature: &[u8],
) -> io::Result<()> {
    print!(rt; " | {signed} | {verified} | ")?;
    if !all_zero(work) {
        print!(rt; "not ")?;
    }
    print!(rt; "zero |")?;
    for b in signature {
        print!(rt; " {b:02X}")?;
    }
    println!(rt; " |")
}

// Fills a stream: x starts at 8 * seed + stream and becomes 75 * x + 74 modulo 65537 for each byte, which is x / 256 modulo 256.
fn fill(s: &mut [u8], seed: u32, stream: u32) {
    let mut x = seed % 64 * 8 + stream % 8;
    for b in s.iter_mut() {
        x = (x % 65537 * 75 + 74) % 65537;
        *b = (x / 256 % 256) as u8;
    }
}

fn all_zero(s: &[u8]) -> bool {
    s.iter().all(|b| *b == 0)
}
