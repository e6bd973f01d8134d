//! What a book keeps beside its slots.
ghost use Rattle.std.specs.Prelude.{◌≡◌, ◌<◌};
ghost use Rattle.whole_book.specs.Questions.{statement_of};
ghost use Rattle.whole_book.specs.Rules.{changes, told_of};
ghost use Rattle.whole_book.specs.Steps.{issuing};

use ledger::Ledger;
use refusal::{Refusal, Refused};
use statement::Statement;

// The first book's states and faults are fewer, and its promises speak of those alone.
#[derive(Clone, Copy, PartialEq, Eq)]
pub(crate) enum BookState {
    Open,
    Closed,
    Reopened,
}

/// The number, the edition and the state of a book, with its accounts.
#[derive(Clone, Copy)]
pub(crate) struct Register {
    pub(crate) number: u32,
    pub(crate) edition: u16,
    pub(crate) state: BookState,
    /// How many slots are booked, withdrawn ones counted.
    pub(crate) used: usize,
    /// Whether a record was booked, corrected or withdrawn since the book was reopened.
    // A mark beside the state: the calls that set it do so in an open book as in a reopened one.
    pub(crate) changed: bool,
    pub(crate) ledger: Ledger,
}

impl Register {
    /// Issues a statement, and closes the book.
    pub(crate) fn issue(&mut self)
        requires { self.old.edition < 1000 }
        ensures { self.new ≡ issuing self.old }
    {
        self.ledger.issue();
        self.edition += 1;
        self.state = BookState::Closed;
    }

    /// The statement of the last issue.
    pub(crate) fn statement(&self) -> Statement
        ensures { result ≡ statement_of self.now }
    {
        Statement {
            number: self.number,
            edition: self.edition,
            charges: self.ledger.last_charges(),
        }
    }
}

/// Why a call is refused.
#[derive(Clone, Copy)]
pub enum BookFault {
    /// The record is blank.
    Blank,
    /// The book's state does not admit the call.
    State,
    /// All slots are used.
    Full,
    /// The record of this number stands under the same key.
    Stands(u16),
    /// No record of this number stands.
    NotStanding,
    /// The correction has another key.
    OtherKey,
    /// The last edition has been issued.
    LastEdition,
    /// The permit is of another book or edition.
    OtherPermit,
    /// A record was booked, corrected or withdrawn since the book was reopened.
    Changed,
}

impl Refused for BookFault {
    ghost told = { told_of };

    fn refusal(&self) -> Refusal {
        match self {
            BookFault::Blank => Refusal::plain(11),
            BookFault::State => Refusal::plain(21),
            BookFault::Full => Refusal::plain(22),
            BookFault::Stands(n) => Refusal::with(23, usize::from(*n)),
            BookFault::NotStanding => Refusal::plain(24),
            BookFault::OtherKey => Refusal::plain(25),
            BookFault::LastEdition => Refusal::plain(26),
            BookFault::OtherPermit => Refusal::plain(27),
            BookFault::Changed => Refusal::plain(28),
        }
    }
}

/// Whether records may change.
pub(crate) fn may_change(state: BookState) -> bool
    ensures { result ≡ changes state }
{
    state != BookState::Closed
}
