// Writes verdicts for the set (1,1,2) and streams of zeros: page 01's 0 for a signature of zeros and a target of zeros, 1 for another target, and the number of each refusal
// that a length or a set can give. It only writes what the crate `verdict` answers.
#![tactic(auto)]

use sets::Set;
use std::io;

// What a verdict is asked of.
#[derive(Clone, Copy)]
struct Case<'a> {
    set: Set,
    public: &'a [u8],
    abq: &'a [u8],
    target: &'a [u8],
    key: &'a [u8],
    signature: &'a [u8],
}

fn main(rt: HostRuntime) -> io::Result<()> {
    let two = [0u8; 2];
    let six = [0u8; 6];
    let zeros = Case {
        set: set(2),
        public: &six,
        abq: &[0; 36],
        target: &two,
        key: &two,
        signature: &[0; 20],
    };
    println!(rt; "| signature of zeros | verdict |\n|---|---|")?;
    row(&rt, "target of zeros", zeros)?;
    let mut case = zeros;
    case.target = b"\x01\x00";
    row(&rt, "target with a 1 in its first element", case)?;
    case.target = b"\x00\x10";
    row(&rt, "target with a 1 in its last element", case)?;
    case = zeros;
    case.set = set(1);
    row(&rt, "set (1,1,1)", case)?;
    lengths(&rt, zeros, &two, &six)
}

// Each stream in another length.
fn lengths<'a>(rt: &impl Print, zeros: Case<'a>, two: &'a [u8], six: &'a [u8]) -> io::Result<()> {
    let mut case = zeros;
    case.public = two;
    row(rt, "public of 2 bytes", case)?;
    case = zeros;
    case.abq = two;
    row(rt, "ABQ of 2 bytes", case)?;
    case = zeros;
    case.target = six;
    row(rt, "target of 6 bytes", case)?;
    case = zeros;
    case.key = six;
    row(rt, "key of 6 bytes", case)?;
    case = zeros;
    case.signature = six;
    row(rt, "signature of 6 bytes", case)?;
    case.target = six;
    row(rt, "target and signature of 6 bytes", case)
}

fn set(l: usize) -> Set {
    Set { v: 1, o: 1, l }
}

// A case, and the page's number of its verdict.
fn row(rt: &impl Print, name: &str, case: Case<'_>) -> io::Result<()> {
    let answer = verdict::verify(
        case.set,
        case.public,
        case.abq,
        case.target,
        case.key,
        case.signature,
    );
    let number = ground::number(answer);
    println!(rt; "| {name} | {number} |")
}
