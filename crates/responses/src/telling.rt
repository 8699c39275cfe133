// The text of what is told, made before it is written: a value that is filled from its end.
ghost use Rattle.std.specs.Prelude.{◌≡◌, ◌+◌, ◌%◌, []};
ghost use Rattle.response_format.specs.Text.{entry_text, refused_text, end_text, event_text};
ghost use Rattle.responses.specs.Placed.{placed, put, put_all, put_digits};

use crate::Text;
use response_format::{Event, Numbers};

// No text yet.
fn no_text() -> Text
    ensures { result ≡ placed [] }
{
    Text {
        bytes: [0; 80],
        from: 80,
    }
}

// One byte before a text.
#[tactic(auto, unfolding(crate::specs::Placed::put))]
fn put(text: Text, byte: u8) -> Text
    ensures { result ≡ put text byte }
{
    let mut longer = text;
    if 1 <= text.from && text.from <= 80 {
        longer.from = text.from - 1;
        longer.bytes[longer.from] = byte;
    }
    longer
}

// By hand here and in put_decimal, since a number's digits go before a text, the last one first: no plainer.
fn last_digit(n: u64) -> u8
    ensures { result ≡ 48 + n % 10 }
{
    b'0' + (n % 10) as u8
}

// The decimal digits of n before a text.
fn put_decimal(text: Text, n: u64) -> Text
    ensures { result ≡ put_digits 20 n text }
{
    let mut here = text;
    let mut rest = n;
    for _ in 0..20usize {
        here = put(here, last_digit(rest));
        rest /= 10;
        if rest == 0 {
            break;
        }
    }
    here
}

// "count mlen smlen" and a line feed.
pub fn entry_text(e: Numbers) -> Text
    ensures { result ≡ placed (entry_text e) }
{
    let end = put(no_text(), b'\n');
    let smlen = put_decimal(end, e.smlen);
    let before_smlen = put(smlen, b' ');
    let mlen = put_decimal(before_smlen, e.mlen);
    let before_mlen = put(mlen, b' ');
    put_decimal(before_mlen, e.count)
}

// A word before a text, from its last letter on.
fn put_word(text: Text, word: &[u8]) -> Text
    ensures { result ≡ put_all word.now text }
{
    let mut here = text;
    for i in (0..word.len()).rev() {
        here = put(here, word[i]);
    }
    here
}

// "refused ", the number and a line feed.
pub fn refused_text(n: u32) -> Text
    ensures { result ≡ placed (refused_text n) }
{
    let end = put(no_text(), b'\n');
    let number = put_decimal(end, u64::from(n));
    put_word(number, b"refused ")
}

// The text of what a file tells: none but for an entry and a refusal.
#[tactic(auto, unfolding(response_format::specs::Text::event_text))]
pub fn event_text(event: Event) -> Text
    ensures { result ≡ placed (event_text event) }
{
    match event {
        Event::Entry(e) => entry_text(e),
        Event::Refused(refusal) => refused_text(u32::from(refusal)),
        _ => no_text(),
    }
}

// The text of the refusal at a file's end: none for 0.
#[tactic(auto, unfolding(response_format::specs::Text::end_text))]
pub fn end_text(n: u32) -> Text
    ensures { result ≡ placed (end_text n) }
{
    if n == 0 {
        return no_text();
    }
    refused_text(n)
}
