//! What a book keeps beside its slots.
ghost use Rattle.std.specs.Prelude.{◌≡◌};
ghost use Rattle.book.specs.Rules.{changes, told_of};

use ledger::Ledger;
use refusal::{Refusal, Refused};

#[derive(Clone, Copy, PartialEq, Eq)]
pub(crate) enum BookState {
    Open,
    Closed,
}

/// The number, the edition and the state of a book, with its accounts.
#[derive(Clone, Copy)]
pub(crate) struct Register {
    pub(crate) number: u32,
    pub(crate) edition: u16,
    pub(crate) state: BookState,
    /// How many slots are booked, withdrawn ones counted.
    pub(crate) used: usize,
    pub(crate) ledger: Ledger,
}

/// Why a call is refused.
#[derive(Clone, Copy)]
pub enum BookFault {
    /// The record is blank.
    Blank,
    /// The book's state does not admit the call.
    State,
    /// All slots are used.
    Full,
    /// The record of this number stands under the same key.
    Stands(u16),
}

impl Refused for BookFault {
    ghost told = { told_of };

    fn refusal(&self) -> Refusal {
        match self {
            BookFault::Blank => Refusal::plain(11),
            BookFault::State => Refusal::plain(21),
            BookFault::Full => Refusal::plain(22),
            BookFault::Stands(n) => Refusal::with(23, usize::from(*n)),
        }
    }
}

/// Whether records may change.
pub(crate) fn may_change(state: BookState) -> bool
    ensures { result ≡ changes state }
{
    state == BookState::Open
}
