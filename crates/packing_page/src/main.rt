// Page 01's packing example, run: bytes 2A F7 hold the three elements 10, 2, 7, and packing these writes 2A 07.
// Then each refusal, with the buffer that it leaves as it was. Every line is what a call answered and what its buffer held after it.
#![tactic(auto)]

use ground::Refusal;
use std::io;

// One line: what was asked, the answer's number, and the buffer in hexadecimal.
fn show(
    rt: &impl Print,
    asked: &str,
    answer: Result<(), Refusal>,
    buffer: &[u8],
) -> io::Result<()> {
    let number = ground::number(answer);
    print!(rt; "{asked}{number}")?;
    for x in buffer {
        print!(rt; " {x:02x}")?;
    }
    println!(rt)
}

fn unpacks(rt: &impl Print, asked: &str, bytes: &[u8], elements: &mut [u8]) -> io::Result<()> {
    let r = packing::unpack(bytes, elements);
    show(rt, asked, r, elements)
}

// The other call of the page, like unpacks: no plainer.
fn packs(rt: &impl Print, asked: &str, elements: &[u8], bytes: &mut [u8]) -> io::Result<()> {
    let r = packing::pack(elements, bytes);
    show(rt, asked, r, bytes)
}

fn example(rt: &impl Print) -> io::Result<()> {
    unpacks(
        rt,
        "unpack 2a f7 to 3 elements: ",
        &[0x2a, 0xf7],
        &mut [0; 3],
    )?;
    packs(
        rt,
        "pack 0a 02 07 to 2 bytes: ",
        &[10, 2, 7],
        &mut [0xff; 2],
    )
}

fn counts(rt: &impl Print) -> io::Result<()> {
    unpacks(
        rt,
        "unpack 2a f7 to 5 elements: ",
        &[0x2a, 0xf7],
        &mut [1; 5],
    )?;
    packs(rt, "pack 0a 02 07 to 1 byte: ", &[10, 2, 7], &mut [0xff; 1])?;
    packs(rt, "pack nothing to no bytes: ", &[], &mut [])
}

fn above_15(rt: &impl Print) -> io::Result<()> {
    packs(
        rt,
        "pack 0a 10 07 to 2 bytes: ",
        &[10, 16, 7],
        &mut [0xff; 2],
    )?;
    packs(
        rt,
        "pack 0a 10 07 to 3 bytes: ",
        &[10, 16, 7],
        &mut [0xff; 3],
    )
}

// A page's program begins as the others do: no plainer.
fn main(rt: HostRuntime) -> io::Result<()> {
    example(&rt)?;
    counts(&rt)?;
    above_15(&rt)
}
