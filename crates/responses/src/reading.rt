// The reader: a state by value that is fed a byte at a time, so that it does not matter how the reads cut the file.
ghost use Rattle.std.specs.Prelude.{◌≡◌, drop};
ghost use Rattle.ground.specs.Answers.{number_of};
ghost use Rattle.response_format.specs.Rules.{refusal_of};
ghost use Rattle.response_format.specs.Tells.{keep};
ghost use Rattle.response_machine.specs.Machine.{state, go, fields_after, field_end, settled, stepped, ended, start, telling, is_stopped, feeds};
ghost use Rattle.response_machine.specs.Reads.{fed};

use ground::{Refusal, demand};
use response_format::{Event, Numbers};
use response_lines::{close, handed, next, whole};
use response_machine::{Closed, Fed, Line, Reader, Stepped};

// One field more, 8 at the most. One select: no plainer.
#[tactic(auto, unfolding(response_machine::specs::Machine::fields_after))]
fn fields_after(fields: u8) -> u8
    ensures { result ≡ fields_after fields }
{
    if fields < 8 { fields + 1 } else { 8 }
}

#[tactic(auto, unfolding(response_format::specs::Tells::keep))]
fn keep(field: u8, n: u64, e: Numbers) -> Numbers
    ensures { result ≡ keep field n e }
{
    match field {
        0 => Numbers { count: n, ..e },
        2 => Numbers { mlen: n, ..e },
        6 => Numbers { smlen: n, ..e },
        _ => e,
    }
}

fn after_line(fields: u8, numbers: Numbers, line: Line, event: Option<Event>) -> Stepped
    ensures { result ≡ go (state fields numbers line) event }
{
    Stepped {
        reader: Reader {
            fields,
            numbers,
            line,
        },
        event,
    }
}

// What the end of a field of bytes tells: sm ends the entry.
// One select: no plainer.
fn field_end(field: u8, numbers: Numbers) -> Event
    ensures { result ≡ field_end field numbers }
{
    if field == 7 {
        Event::Entry(numbers)
    } else {
        Event::Ended(field)
    }
}

fn settled(fields: u8, numbers: Numbers, closed: Closed) -> Stepped
    ensures { result ≡ settled fields numbers closed }
{
    match closed {
        Closed::Gap => after_line(0, numbers, Line::Empty, None),
        Closed::Skipped => after_line(fields, numbers, Line::Empty, None),
        Closed::Value(n) => {
            let noted = keep(fields, n, numbers);
            after_line(
                fields_after(fields),
                noted,
                Line::Empty,
                Some(Event::Number(fields, n)),
            )
        }
        Closed::Bytes => {
            let told = field_end(fields, numbers);
            after_line(fields_after(fields), numbers, Line::Empty, Some(told))
        }
        Closed::Fault(refusal) => after_line(
            fields,
            numbers,
            Line::Stopped(refusal),
            Some(Event::Refused(refusal)),
        ),
        Closed::Over(refusal) => after_line(fields, numbers, Line::Stopped(refusal), None),
    }
}

// A reader at the start of a file.
pub fn start() -> Reader
    ensures { result ≡ start }
{
    Reader {
        fields: 0,
        numbers: Numbers {
            count: 0,
            mlen: 0,
            smlen: 0,
        },
        line: Line::Empty,
    }
}

// The reader after one more byte, and what the byte brings.
#[tactic(auto, unfolding(response_machine::specs::Machine::stepped))]
pub fn step(reader: Reader, byte: u8) -> Stepped
    ensures { result ≡ stepped reader byte }
{
    let fields = reader.fields;
    let numbers = reader.numbers;
    let line = reader.line;
    if byte == b'\n' {
        return settled(fields, numbers, close(fields, line));
    }
    let event = handed(fields, line, byte);
    let more = next(fields, line, byte);
    after_line(fields, numbers, more, event)
}

// The answer at the file's end: a line that has begun has no line feed.
#[tactic(auto, unfolding(response_machine::specs::Machine::ended))]
pub fn end(reader: Reader) -> Result<(), Refusal>
    ensures { result ≡ ended reader.fields reader.line }
{
    match reader.line {
        Line::Empty => demand(whole(reader.fields), Refusal::FieldOutOfOrder),
        Line::Stopped(refusal) => Err(refusal),
        _ => Err(Refusal::BadLine),
    }
}

// An entry or a refusal.
#[tactic(auto, unfolding(response_machine::specs::Machine::telling))]
fn telling(event: Option<Event>) -> bool
    ensures { result ≡ telling event }
{
    matches!(event, Some(Event::Entry(_) | Event::Refused(_)))
}

// Feeds a piece from a place on, up to the next entry or refusal, or to its end.
pub fn feed(reader: Reader, piece: &[u8], from: usize) -> Fed
    ensures { result ≡ feeds reader from (drop from piece.now) }
{
    let mut here = reader;
    for at in from..piece.len() {
        let stepped = step(here, piece[at]);
        if telling(stepped.event) {
            return Fed {
                reader: stepped.reader,
                event: stepped.event,
                at: at + 1,
            };
        }
        here = stepped.reader;
    }
    Fed {
        reader: here,
        event: None,
        at: from.max(piece.len()),
    }
}

// A line was refused: nothing more is told.
#[tactic(auto, unfolding(response_machine::specs::Machine::is_stopped))]
pub fn is_stopped(reader: Reader) -> bool
    ensures { result ≡ is_stopped reader.line }
{
    matches!(reader.line, Line::Stopped(_))
}

// The reader after a piece, whatever it tells.
pub fn absorb(reader: Reader, piece: &[u8]) -> Reader
    ensures { result ≡ fed reader piece.now }
{
    let mut here = reader;
    for &byte in piece {
        here = step(here, byte).reader;
    }
    here
}

// A whole file is of the format, or is refused.
pub fn refusal(file: &[u8]) -> Result<(), Refusal>
    ensures { number_of result ≡ refusal_of file.now }
{
    end(absorb(start(), file))
}
