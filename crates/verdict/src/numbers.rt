// The numbers of page 01 that a caller can receive from the verdict.
ghost use Rattle.std.specs.Prelude.{◌≡◌};
ghost use Rattle.verdict.specs.Promise.{number_of_verdict};

use crate::Verdict;
use ground::PageNumber;

impl PageNumber for Verdict {
    ghost page_number = { number_of_verdict };

    fn page_number(self) -> u32 {
        match self {
            Verdict::Accepted => 0,
            Verdict::NotAccepted => 1,
        }
    }
}
