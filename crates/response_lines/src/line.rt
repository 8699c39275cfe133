// A line, byte by byte, and what it is at its line feed.
// A line's faults are told at its line feed alone, since a line that never ends is refused by 30 whatever it holds.
ghost use Rattle.std.specs.Prelude.{◌≡◌, ◌<◌};
ghost use Rattle.response_format.specs.Rules.{whole};
ghost use Rattle.response_machine.specs.Machine.{grown, found, value_start, labelled, next, handed, closed};

use crate::digits::digit;
use crate::labels::{is_number, label_byte, label_length};
use ground::Refusal;
use response_format::Event;
use response_machine::{Closed, Line};

// One digit more; a number that is too large stays so.
#[tactic(auto, unfolding(response_machine::specs::Machine::grown))]
fn grow_number(n: u64, d: u8) -> u64
    requires { d < 10 }
    ensures { result ≡ grown n d }
{
    if n <= 4294967295 {
        n * 10 + u64::from(d)
    } else {
        n
    }
}

// How many bytes of " = " stand last after one more byte; 3 for ever once it stood.
// How far " = " has come is a count, and the match its table: no plainer.
#[tactic(auto, unfolding(response_machine::specs::Machine::found))]
fn found(last: u8, byte: u8) -> u8
    ensures { result ≡ found last byte }
{
    match (last, byte) {
        (3, _) => 3,
        (2, b' ') => 3,
        (_, b' ') => 1,
        (1, b'=') => 2,
        _ => 0,
    }
}

#[tactic(auto, unfolding(response_machine::specs::Machine::value_start))]
fn value_start(field: u8) -> Line
    ensures { result ≡ value_start field }
{
    if is_number(field) {
        Line::NoDigit
    } else {
        Line::Pairs
    }
}

#[tactic(auto, unfolding(response_machine::specs::Machine::labelled, response_machine::specs::Machine::separator_at))]
fn labelled(field: u8, at: u8, byte: u8) -> Line
    ensures { result ≡ labelled field at byte }
{
    let length = label_length(field);
    if at < length && byte == label_byte(field, at) {
        if at + 1 == length {
            value_start(field)
        } else {
            Line::Label(at + 1)
        }
    } else {
        // how many bytes of " = ", with which a label ends, stand
        let stood = if at < length {
            (at + 3).saturating_sub(length)
        } else {
            0
        };
        Line::Other(found(stood, byte))
    }
}

#[tactic(auto, unfolding(response_machine::specs::Machine::next))]
fn number_digit(n: u64, byte: u8) -> Line
    ensures { result ≡ next 0 (Line.Number n) byte }
{
    let d = digit(byte);
    if d < 10 {
        Line::Number(grow_number(n, d))
    } else {
        Line::Broken
    }
}

#[tactic(auto, unfolding(response_machine::specs::Machine::next))]
fn high_digit(byte: u8) -> Line
    ensures { result ≡ next 0 Line.Pairs byte }
{
    let d = digit(byte);
    if d < 16 { Line::Half(d) } else { Line::Broken }
}

#[tactic(auto, unfolding(response_machine::specs::Machine::next))]
fn low_digit(byte: u8) -> Line
    ensures { result ≡ next 0 (Line.Half 0) byte }
{
    if digit(byte) < 16 {
        Line::Pairs
    } else {
        Line::Broken
    }
}

#[tactic(auto, unfolding(response_machine::specs::Machine::next))]
fn first_byte(field: u8, byte: u8) -> Line
    ensures { result ≡ next field Line.Empty byte }
{
    if byte == b'#' {
        Line::Comment
    } else {
        labelled(field, 0, byte)
    }
}

// The line with one byte more.
#[tactic(auto, unfolding(response_machine::specs::Machine::next, response_machine::specs::Machine::grown))]
pub fn next(field: u8, line: Line, byte: u8) -> Line
    ensures { result ≡ next field line byte }
{
    match line {
        Line::Empty => first_byte(field, byte),
        Line::Label(at) => labelled(field, at, byte),
        Line::Other(last) => Line::Other(found(last, byte)),
        Line::NoDigit => number_digit(0, byte),
        Line::Number(n) => number_digit(n, byte),
        Line::Pairs => high_digit(byte),
        Line::Half(_) => low_digit(byte),
        Line::Comment | Line::Broken | Line::Stopped(_) => line,
    }
}

// The decoded byte that a digit completes, if it does.
#[tactic(auto, unfolding(response_machine::specs::Machine::handed))]
pub fn handed(field: u8, line: Line, byte: u8) -> Option<Event>
    ensures { result ≡ handed field line byte }
{
    if let Line::Half(high) = line {
        let low = digit(byte);
        if low < 16 {
            return Some(Event::Byte(field, high % 16 * 16 + low));
        }
    }
    None
}

#[tactic(auto, unfolding(response_format::specs::Rules::whole))]
pub fn whole(fields: u8) -> bool
    ensures { result ≡ whole fields }
{
    matches!(fields, 0 | 8)
}

#[tactic(auto, unfolding(response_machine::specs::Machine::closed))]
pub fn close(fields: u8, line: Line) -> Closed
    ensures { result ≡ closed fields line }
{
    match line {
        Line::Empty => {
            if whole(fields) {
                return Closed::Gap;
            }
            Closed::Fault(Refusal::FieldOutOfOrder)
        }
        Line::Comment => Closed::Skipped,
        Line::Label(_) => Closed::Fault(Refusal::BadLine),
        Line::Other(last) => {
            if last == 3 {
                return Closed::Fault(Refusal::FieldOutOfOrder);
            }
            Closed::Fault(Refusal::BadLine)
        }
        Line::Broken => Closed::Fault(Refusal::NotADigit),
        Line::NoDigit => Closed::Fault(Refusal::NotADigit),
        Line::Number(n) => {
            if n <= 4294967295 {
                return Closed::Value(n);
            }
            Closed::Fault(Refusal::NumberTooLarge)
        }
        Line::Pairs => Closed::Bytes,
        Line::Half(_) => Closed::Fault(Refusal::OddDigits),
        Line::Stopped(refusal) => Closed::Over(refusal),
    }
}
