// Prints count, mlen and smlen of each entry of a response file on standard input, a line each, and "refused" with the number at a refusal.
// The file may be of any size: it is read in pieces of 64 KiB, and only the reader's state is kept from one to the next.
#![tactic(auto)]

ghost use Rattle.std.specs.Prelude.{◌≡◌};
ghost use Rattle.response_machine.specs.Reads.{fed};

use response_machine::Reader;
use responses::Text;
use std::io;
use std::io::{Read, Write};

// Where the program writes, and what became of it: after a write that failed nothing more is written.
#[derive(Drop)]
struct Output<W: Write + Drop> {
    to: W,
    wrote: io::Result<()>,
}

// The one place where the program writes.
fn write_from<W: Write + Drop>(out: &mut Output<W>, bytes: &[u8; 80], from: usize) {
    let all: &[u8] = bytes;
    if from < all.len() && out.wrote.is_ok() {
        out.wrote = out.to.write_all(&all[from..]);
    }
}

// Writes a text that event_text or end_text made.
fn write_text<W: Write + Drop>(out: &mut Output<W>, text: Text) {
    let bytes = text.bytes;
    write_from(out, &bytes, text.from);
}

// Writes what a piece tells, and answers the reader after it.
fn show<W: Write + Drop>(out: &mut Output<W>, reader: Reader, piece: &[u8]) -> Reader
    ensures { result ≡ fed reader piece.now }
{
    let mut here = reader;
    let mut at = 0;
    while at < piece.len() {
        let part = responses::feed(here, piece, at);
        if let Some(event) = part.event {
            write_text(out, responses::event_text(event));
        }
        here = part.reader;
        at = part.at;
    }
    here
}

// Shows the whole input: to its end, to a refusal or to a write that fails. A read that fails is an error.
// A proved loop has to end, and nothing says that a file does: the reads are counted up to a number that no run comes to.
fn read_all<R: Read, W: Write + Drop>(input: &mut R, out: &mut Output<W>) -> io::Result<Reader> {
    let mut piece = [0u8; 65536];
    let mut here = responses::start();
    for _ in 0..u64::MAX {
        let n = input.read(&mut piece)?;
        if n == 0 {
            break;
        }
        here = show(out, here, &piece[..n]);
        if responses::is_stopped(here) || out.wrote.is_err() {
            break;
        }
    }
    Ok(here)
}

fn main(rt: HostRuntime) -> io::Result<()> {
    let mut out = Output {
        to: io::writer(&rt),
        wrote: Ok(()),
    };
    let last = read_all(&mut rt.stdin(), &mut out)?;
    if !responses::is_stopped(last) {
        let number = ground::number(responses::end(last));
        write_text(&mut out, responses::end_text(number));
    }
    out.wrote
}
