// The numbers of page 01 that a caller can receive from signing.
ghost use Rattle.std.specs.Prelude.{◌≡◌};
ghost use Rattle.signing.specs.Signs.{number_of_signing};

use crate::Signing;
use ground::PageNumber;

impl PageNumber for Signing {
    ghost page_number = { number_of_signing };

    fn page_number(self) -> u32 {
        match self {
            Signing::Done => 0,
            Signing::Redo => 2,
        }
    }
}
