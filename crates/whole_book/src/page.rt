//! Why no statement is written into a page.
ghost use Rattle.std.specs.Prelude.{◌≡◌};
ghost use Rattle.whole_book.specs.Questions.{told_of_statement};
ghost use Rattle.whole_book.specs.declared.page.StatementFault.TheVariants.{PageTooShort};

use refusal::{PageFault, Refusal, Refused};

#[derive(Clone, Copy)]
pub enum StatementFault {
    /// The book has issued no statement yet.
    NoneYet,
    PageTooShort,
}

impl Refused for StatementFault {
    ghost told = { told_of_statement };

    fn refusal(&self) -> Refusal {
        match self {
            StatementFault::NoneYet => Refusal::plain(29),
            StatementFault::PageTooShort => Refusal::plain(13),
        }
    }
}

impl From<PageFault> for StatementFault {
    ghost from_gives = { λ _ r. r ≡ PageTooShort };

    fn from(fault: PageFault) -> StatementFault {
        match fault {
            PageFault::TooShort => StatementFault::PageTooShort,
        }
    }
}
