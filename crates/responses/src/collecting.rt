// One field of a file, found by the reader and decoded into a lent output.
ghost use Rattle.std.specs.Prelude.{◌≡◌, eqb};
ghost use Rattle.ground.specs.Pick.{both};
ghost use Rattle.response_format.specs.Lent.{Collects};
ghost use Rattle.response_machine.specs.Machine.{start, ending, passing, seeks};

use crate::reading::{end, start, step};
use ground::Refusal;
use response_format::{Collected, Event};
use response_lines::{decode, label_length};
use response_machine::Span;

// The event ends this field, and its value is bytes.
#[tactic(auto, unfolding(response_machine::specs::Machine::ending))]
fn ending(field: u8, event: Option<Event>) -> bool
    ensures { result ≡ ending field event }
{
    match event {
        Some(Event::Ended(ended)) => ended == field,
        Some(Event::Entry(_)) => 7 == field,
        _ => false,
    }
}

// How many entries are still to pass.
#[tactic(auto, unfolding(response_machine::specs::Machine::passing))]
fn passing(left: usize, event: Option<Event>) -> usize
    ensures { result ≡ passing left event }
{
    match event {
        Some(Event::Entry(_)) => left.saturating_sub(1),
        _ => left,
    }
}

// The event ends the field that is asked for.
fn is_here(left: usize, field: u8, event: Option<Event>) -> bool
    ensures { result ≡ both (eqb left 0) (ending field event) }
{
    left == 0 && ending(field, event)
}

// Where the line of a field of bytes stands, entries and fields counted from 0; none where the file ends and nothing is at fault.
// A refusal is the file's before that line.
pub fn find(file: &[u8], entry: usize, field: u8) -> Result<Option<Span>, Refusal>
    ensures { result ≡ seeks field entry start 0 0 file.now }
{
    let mut here = start();
    let mut left = entry;
    let mut line = 0;
    for (at, &byte) in file.iter().enumerate() {
        let stepped = step(here, byte);
        if is_here(left, field, stepped.event) {
            return Ok(Some(Span { from: line, to: at }));
        }
        left = passing(left, stepped.event);
        here = stepped.reader;
        if byte == b'\n' {
            line = at + 1;
        }
    }
    end(here)?;
    Ok(None)
}

// Collects the bytes of one field of a file, entries and fields counted from 0. The output is written whole, or not at all.
// Refused is the file up to the line of that field, or with 20 an output of another length.
#[tactic(auto, using(response_machine::proofs::Seeks::seeks_fits))]
pub fn collect(file: &[u8], entry: usize, field: u8, out: &mut [u8]) -> Result<Collected, Refusal>
    ensures { Collects file.now entry field out.old result out.new }
{
    let Some(line) = find(file, entry, field)? else {
        return Ok(Collected::Absent);
    };
    let from = line.from + usize::from(label_length(field));
    // By `let else` and not by `?`, so that the refusal that is answered stands alone in a line, where an edit can change it.
    let Err(refusal) = decode(&file[from..line.to], out) else {
        return Ok(Collected::Written);
    };
    Err(refusal)
}
