// Writes page 01's table of lengths and the cases that end its pages for the course: sets inside and outside the limits, signatures of 247 to 249 bytes.
// Then further sets outside the limits. It only writes what the crates `sets` and `salt` answer.
#![tactic(auto)]

use sets::Set;
use std::io;

const LARGEST: usize = usize::MAX;

fn main(rt: HostRuntime) -> io::Result<()> {
    println!(rt; "| set | public | ABQ | private | vinegar | target | key | signature | work |")?;
    println!(rt; "|---|---|---|---|---|---|---|---|---|")?;
    lengths(&rt, set(24, 5, 4))?;
    lengths(&rt, set(25, 8, 3))?;
    lengths(&rt, set(37, 17, 2))?;
    lengths(&rt, set(1, 1, 2))?;
    println!(rt; "\n| set | key generation with the set's own lengths |\n|---|---|")?;
    refusal(&rt, set(33, 33, 4))?;
    refusal(&rt, set(60, 10, 4))?;
    refusal(&rt, set(24, 5, 1))?;
    refusal(&rt, set(24, 5, 5))?;
    println!(rt; "\n| set | bytes of the signature | its salt |\n|---|---|---|")?;
    signature(&rt, set(24, 5, 4), &[0; 247])?;
    signature(&rt, set(24, 5, 4), &[0; 248])?;
    signature(&rt, set(24, 5, 4), &[0; 249])?;
    println!(rt; "\n| further set | key generation with the set's own lengths |\n|---|---|")?;
    refusal(&rt, set(0, 5, 4))?;
    refusal(&rt, set(76, 5, 4))?;
    refusal(&rt, set(24, 0, 4))?;
    refusal(&rt, set(24, 34, 2))?;
    refusal(&rt, set(LARGEST, LARGEST, LARGEST))?;
    refusal(&rt, set(24, LARGEST, 4))?;
    refusal(&rt, set(24, 5, LARGEST))
}

fn set(v: usize, o: usize, l: usize) -> Set {
    Set { v, o, l }
}

// The eight lengths of a set, a row of the page's table.
fn lengths(rt: &impl Print, s: Set) -> io::Result<()> {
    name(rt, s)?;
    cell(rt, sets::public_bytes(s))?;
    cell(rt, sets::abq_bytes(s))?;
    cell(rt, sets::private_bytes(s))?;
    cell(rt, sets::vinegar_bytes(s))?;
    cell(rt, sets::target_bytes(s))?;
    cell(rt, sets::key_bytes(s))?;
    cell(rt, sets::signature_bytes(s))?;
    cell(rt, sets::work_bytes(s))?;
    println!(rt)
}

// What key generation answers for buffers of the set's own lengths: 0, or 10 where the set is not allowed.
fn refusal(rt: &impl Print, s: Set) -> io::Result<()> {
    name(rt, s)?;
    let answer = refusals::keygen_refusal(
        s,
        sets::public_bytes(s),
        sets::private_bytes(s),
        sets::key_bytes(s),
    );
    cell(rt, ground::number(answer) as usize)?;
    println!(rt)
}

// What the salt's second call answers for a signature: 0, 10 or 18.
fn signature(rt: &impl Print, s: Set, bytes: &[u8]) -> io::Result<()> {
    name(rt, s)?;
    cell(rt, bytes.len())?;
    let status = salt::salt_status(s, bytes);
    cell(rt, ground::number(status) as usize)?;
    println!(rt)
}

// The row's first cell.
fn name(rt: &impl Print, s: Set) -> io::Result<()> {
    print!(rt; "| ({},{},{}) |", s.v, s.o, s.l)
}

fn cell(rt: &impl Print, n: usize) -> io::Result<()> {
    print!(rt; " {n} |")
}
