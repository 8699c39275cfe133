// What every floor shares: the refusals with the pages' numbers, and the test that refuses where it is not met.
// The laws about lists, places and computed tests that every proof cites stand in specs/.
#![tactic(auto)]

ghost use Rattle.std.specs.Prelude.{◌≡◌, ℕ, Ok, Err};
ghost use Rattle.ground.specs.Pick.{pick};
ghost use Rattle.ground.specs.Answers.{code, numbered};

// Why a call is refused, each with the page's number: 10 to 23 of page 01, 30 to 46 of page 02.
#[derive(Clone, Copy, Debug, PartialEq, Eq)]
pub enum Refusal {
    // the set, or a size given to a helper
    SetNotAllowed = 10,
    PublicLength = 11,
    AbqLength = 12,
    PrivateLength = 13,
    VinegarLength = 14,
    TargetLength = 15,
    KeyLength = 16,
    SaltLength = 17,
    SignatureLength = 18,
    WorkLength = 19,
    OutputLength = 20,
    // an A or B cannot be made invertible
    NotInvertible = 21,
    // of elements and bytes, where they are packed or unpacked
    CountsDiffer = 22,
    // an element or a matrix entry
    AboveFifteen = 23,
    // of a response file: unfinished, or not empty, no comment and without " = "
    BadLine = 30,
    OddDigits = 31,
    NotADigit = 32,
    FieldOutOfOrder = 33,
    NumberTooLarge = 34,
    // of an exercise book: not whole blocks, or too many
    BookSize = 40,
    BlockCheck = 41,
    // kind, zero byte, length or padding
    BlockForm = 42,
    BlockOutOfTurn = 43,
    // an empty field, a kind outside 1 to 7 or a wrong order
    BadFields = 45,
    TooManyBlocks = 46,
}

// The page's number.
impl From<Refusal> for u32 {
    ghost from_gives = { λ refusal n. n ≡ code refusal };

    fn from(refusal: Refusal) -> u32 {
        refusal as u32
    }
}

// Done where the condition is met, else the refusal.
// One select, said here so that it is said nowhere else.
pub fn demand(met: bool, refusal: Refusal) -> Result<(), Refusal>
    ensures { result ≡ pick met (Ok tt) (Err refusal) }
{
    if met { Ok(()) } else { Err(refusal) }
}

// What a call comes to where nothing is refused, with the page's number of it.
pub trait PageNumber {
    ghost page_number: { Self → ℕ };

    fn page_number(self) -> u32
        ensures { result ≡ page_number self };
}

impl PageNumber for () {
    ghost page_number = { λ done. 0 };

    fn page_number(self) -> u32 {
        0 // done
    }
}

impl PageNumber for usize {
    ghost page_number = { λ count. 0 };

    fn page_number(self) -> u32 {
        0 // the count stands beside it
    }
}

// The page's number of an answer: that of what it comes to, or of the refusal.
pub fn number<T: PageNumber>(answer: Result<T, Refusal>) -> u32
    ensures { result ≡ numbered T.page_number answer }
{
    match answer {
        Ok(value) => value.page_number(),
        Err(refusal) => u32::from(refusal),
    }
}
