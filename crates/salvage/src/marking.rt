// Second pass: the exercises that a bad block spoils get a mark of 1. A good block right after a bad one is the nearest good block after it.
ghost use Rattle.std.specs.Prelude.{◌≡◌, false, eqb, leb, length};
ghost use Rattle.ground.specs.Pick.{pick, both as Pick·both};
ghost use Rattle.salvage.specs.Marking.{Marks, spoils_here, MarkAsks, Spoilt};

use blocks::Head;

// The mark of one exercise.
// `spoil` is a test's answer, not a choice of work: without it mark_block would say the write twice.
fn mark(marks: &mut [u8], exercise: u16, spoil: bool)
    requires { length marks.old ≡ 65536 }
    ensures { Marks marks.old (λ e. Pick·both spoil (eqb exercise e)) marks.new }
{
    if spoil {
        marks[usize::from(exercise)] = 1;
    }
}

// A good block's exercise is spoiled by a bad one right before it; a bad one listed 43 spoils its own.
fn spoils_own(fault: u8, pending: bool, kind: u8) -> bool
    ensures { result ≡ pick (eqb fault 0) (Pick·both pending (leb 1 kind)) (eqb fault 43) }
{
    fault == 43 || (fault == 0 && pending && 1 <= kind)
}

// A bad block spoils the exercise of the nearest good one before it; kind 0 is none.
fn spoils_before(fault: u8, kind: u8) -> bool
    ensures { result ≡ pick (eqb fault 0) false (leb 1 kind) }
{
    fault != 0 && 1 <= kind
}

// The marks of one block, where `before` is the nearest good block before it and `pending` says that the block before it is bad.
fn mark_block(marks: &mut [u8], fault: u8, head: Head, before: Head, pending: bool)
    requires { length marks.old ≡ 65536 }
    ensures { Marks marks.old (spoils_here fault head before pending) marks.new }
{
    mark(marks, head.exercise, spoils_own(fault, pending, head.kind));
    mark(marks, before.exercise, spoils_before(fault, before.kind));
}

// Every exercise that is spoiled gets its mark.
pub fn mark_all(marks: &mut [u8], book: &[u8], list: &[u8])
    requires { MarkAsks marks.old book.now list.now }
    ensures { Spoilt book.now marks.new }
{
    let n = book.len() / 512;
    let mut before = blocks::START;
    let mut pending = false;
    for b in 0..n {
        let fault = list[b];
        let head = blocks::head_of(blocks::block_at(book, b));
        mark_block(marks, fault, head, before, pending);
        if fault == 0 {
            before = head;
        }
        pending = fault != 0;
    }
}
