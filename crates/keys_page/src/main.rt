// Runs page 01's key example, then a call for each refusal, and writes each answer and what the output holds after it.
// Every output is filled with EE before the call, so that a refusal shows that it was left alone.
#![tactic(auto)]

use sets::Set;
use std::io;

fn main(rt: HostRuntime) -> io::Result<()> {
    let example = Set { v: 1, o: 1, l: 2 };
    let public = b"\x01\x10\x00\x00\x00\x00";
    let private = b"\x15";
    print!(rt; "set (1,1,2), public 01 10 00 00 00 00, private 15: ")?;
    generate(&rt, example, public, private, &mut [0xee; 2])?;
    print!(rt; "the set (1,1,5): ")?;
    generate(
        &rt,
        Set { v: 1, o: 1, l: 5 },
        public,
        private,
        &mut [0xee; 2],
    )?;
    print!(rt; "a public stream of 5 bytes: ")?;
    generate(
        &rt,
        example,
        b"\x01\x10\x00\x00\x00",
        private,
        &mut [0xee; 2],
    )?;
    print!(rt; "a private stream of 2 bytes: ")?;
    generate(&rt, example, public, b"\x15\x00", &mut [0xee; 2])?;
    print!(rt; "an output of 3 bytes: ")?;
    generate(&rt, example, public, private, &mut [0xee; 3])?;
    print!(rt; "the set and every length: ")?;
    generate(&rt, Set { v: 0, o: 1, l: 2 }, b"\x01", b"", &mut [0xee; 3])?;
    print!(rt; "every length: ")?;
    generate(&rt, example, b"\x01", b"", &mut [0xee; 3])?;
    print!(rt; "the private stream and the output: ")?;
    generate(&rt, example, public, b"", &mut [0xee; 3])
}

// The answer's number, and the output in hexadecimal.
fn generate(
    rt: &impl Print,
    set: Set,
    public: &[u8],
    private: &[u8],
    key: &mut [u8],
) -> io::Result<()> {
    let answer = keys::generate(set, public, private, key);
    let number = ground::number(answer);
    print!(rt; "{number}")?;
    for b in key.iter() {
        print!(rt; " {b:02X}")?;
    }
    println!(rt)
}
