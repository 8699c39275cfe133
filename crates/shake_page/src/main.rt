// The well-known answers of SHAKE128 and SHAKE256, run: the empty message and 200 bytes A3, 512 bytes of output each, which is over several blocks;
// then messages and outputs that end at a block's border or beside it. What is printed was compared with an outside program's answers.
#![tactic(auto)]

use std::io;

// The bytes in hexadecimal, 32 to a line.
fn show(rt: &impl Print, bytes: &[u8]) -> io::Result<()> {
    for line in bytes.chunks(32) {
        for x in line {
            print!(rt; "{x:02x}")?;
        }
        println!(rt)?;
    }
    Ok(())
}

// Both outputs of a message, in a buffer of any length.
fn both(rt: &impl Print, asked: &str, message: &[u8], out: &mut [u8]) -> io::Result<()> {
    println!(rt; "SHAKE128 of {asked}")?;
    shake::shake128(message, out);
    show(rt, out)?;
    println!(rt; "SHAKE256 of {asked}")?;
    shake::shake256(message, out);
    show(rt, out)
}

fn standard(rt: &impl Print) -> io::Result<()> {
    both(rt, "the empty message, 512 bytes", &[], &mut [0; 512])?;
    both(rt, "200 bytes A3, 512 bytes", &[0xa3; 200], &mut [0; 512])
}

fn messages(rt: &impl Print) -> io::Result<()> {
    both(rt, "135 bytes A3, 32 bytes", &[0xa3; 135], &mut [0; 32])?;
    both(rt, "136 bytes A3, 32 bytes", &[0xa3; 136], &mut [0; 32])?;
    both(rt, "137 bytes A3, 32 bytes", &[0xa3; 137], &mut [0; 32])?;
    both(rt, "167 bytes A3, 32 bytes", &[0xa3; 167], &mut [0; 32])?;
    both(rt, "168 bytes A3, 32 bytes", &[0xa3; 168], &mut [0; 32])?;
    both(rt, "169 bytes A3, 32 bytes", &[0xa3; 169], &mut [0; 32])
}

fn outputs(rt: &impl Print) -> io::Result<()> {
    both(rt, "3 bytes 5C, no bytes", &[0x5c; 3], &mut [])?;
    both(rt, "3 bytes 5C, 1 byte", &[0x5c; 3], &mut [0; 1])?;
    both(rt, "3 bytes 5C, 136 bytes", &[0x5c; 3], &mut [0; 136])?;
    both(rt, "3 bytes 5C, 137 bytes", &[0x5c; 3], &mut [0; 137])?;
    both(rt, "3 bytes 5C, 168 bytes", &[0x5c; 3], &mut [0; 168])?;
    both(rt, "3 bytes 5C, 169 bytes", &[0x5c; 3], &mut [0; 169])
}

// A page's program begins as the others do: no plainer.
fn main(rt: HostRuntime) -> io::Result<()> {
    standard(&rt)?;
    messages(&rt)?;
    outputs(&rt)
}
