// The salt of a signature, run for the set (1,1,2): 4 bytes of elements, then 16 of salt. Each line is the number of the second call, and the bytes that were handed back.
#![tactic(auto)]

use sets::Set;
use std::io;
use std::io::Write;

fn show(rt: &impl Print, asked: &str, set: Set, signature: &[u8]) -> io::Result<()> {
    let status = salt::salt_status(set, signature);
    let number = ground::number(status);
    print!(rt; "{asked}{number} ")?;
    let part = salt::salt(set, signature);
    io::writer(rt).write_all(part)?;
    println!(rt)
}

fn main(rt: HostRuntime) -> io::Result<()> {
    show(
        &rt,
        "20 bytes: ",
        Set { v: 1, o: 1, l: 2 },
        b"1234abcdefghijklmnop",
    )?;
    show(
        &rt,
        "19 bytes: ",
        Set { v: 1, o: 1, l: 2 },
        b"1234abcdefghijklmno",
    )?;
    show(
        &rt,
        "l = 5: ",
        Set { v: 1, o: 1, l: 5 },
        b"1234abcdefghijklmnop",
    )
}
