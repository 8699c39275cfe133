// The writer of exercise books (page 02, Req 13): the fields that lent lists tell become a book, or the call is refused and nothing is written.
// `lists` looks at what is lent, `parts` writes a field's parts. What is written is `book_of` of `books`.
#![tactic(auto)]

mod lists;
mod parts;

ghost use Rattle.std.specs.Prelude.{◌≡◌};
ghost use Rattle.books.specs.Fields.{book_of};
ghost use Rattle.book_writer.specs.Lists.{fields_in, Written};
ghost use Rattle.book_writer.specs.WritingAll.{Allowed};

use ground::Refusal;
use lists::check_write;
use parts::write_field;

// Every field goes into the output.
fn write_all(out: &mut [u8], exercises: &[u16], kinds: &[u8], sizes: &[usize], payload: &[u8])
    requires { Allowed out.old exercises.now kinds.now sizes.now payload.now }
    ensures { out.new ≡ book_of (fields_in exercises.now kinds.now sizes.now payload.now) }
{
    let mut at = 0;
    let mut b = 0;
    // By index: a zip of three lists would be no plainer.
    for i in 0..exercises.len() {
        let end = at + sizes[i];
        b = write_field(out, b, exercises[i], kinds[i], &payload[at..end]);
        at = end;
    }
}

// The book of the fields. 45 an empty field, a kind outside 1 to 7, a wrong order or lists that do not fit each other, 46 too many blocks, 20 output length;
// a refusal writes nothing.
pub fn write(
    exercises: &[u16],
    kinds: &[u8],
    sizes: &[usize],
    payload: &[u8],
    out: &mut [u8],
) -> Result<(), Refusal>
    ensures { Written exercises.now kinds.now sizes.now payload.now out.old result out.new }
{
    check_write(exercises, kinds, sizes, payload, out)?;
    write_all(out, exercises, kinds, sizes, payload);
    Ok(())
}
