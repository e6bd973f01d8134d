//! A book over lent slots, for records of any one kind.
#![tactic(auto)]

ghost use Rattle.std.specs.Prelude.{◌≡◌, ◌≤◌, IfOk};
ghost use Rattle.wire.specs.Bytes.{page_after};
ghost use Rattle.ledger.specs.Moves.{account_of};
ghost use Rattle.statement.specs.Page.{bytes_of};
ghost use Rattle.slots.specs.Calls.{Called, capacity};
ghost use Rattle.slots.specs.Entries.{lookup};
ghost use Rattle.whole_book.specs.Questions.{Finds, stating, statement_of};
ghost use Rattle.whole_book.specs.Rules.{abandonable, bookable, ceiling, correctable, reissuable, withdrawable};
ghost use Rattle.whole_book.specs.Steps.{abandoning, booking, closing, correcting, entries, new_register, reissuing, reopening, withdrawing};

use ledger::{Account, Ledger};
use record::{Record, is_member};
use refusal::MemberFault;
use slots::{Entries, MOST_SLOTS};

mod page;
mod permit;
mod register;

pub use crate::page::StatementFault;
pub use crate::permit::{Permit, Unspent};
pub use crate::register::BookFault;
use crate::register::{BookState, Register, may_change};
pub use slots::{Slot, SlotState};

/// The last edition that a book can issue.
const LAST_EDITION: u16 = 1000;

/// A book over slots that its opener lends. An open book has issued no statement, a reopened one can
/// issue one more, and no more slots are booked than may be used.
#[derive(Drop)]
pub struct Book<'a, R: Record> {
    slots: &'a mut [Slot<R>],
    register: Register,
    ghost paced: { register.edition ≤ ceiling register.state },
    ghost room: { register.used ≤ capacity slots.now },
}

impl<'a, R: Record> Book<'a, R> {
    /// Opens a book over these slots.
    pub fn open(number: u32, slots: &'a mut [Slot<R>]) -> Book<'a, R>
        ensures lent { result.slots.ghost_name ≡ slots.entry.ghost_name }
        ensures same { result.slots.now ≡ slots.old }
        ensures fresh { result.register ≡ new_register number }
    {
        Book {
            slots,
            register: Register {
                number,
                edition: 0,
                state: BookState::Open,
                used: 0,
                changed: false,
                ledger: Ledger::new(),
            },
        }
    }

    /// Books a record in the next slot; answers its number, counted from 1.
    pub fn book(&mut self, item: R) -> Result<u16, BookFault>
        ensures { Called (booking R.keyed R.posted self.old.slots.now self.old.register item) result self.old.slots self.new.slots self.new.register }
    {
        self.bookable(&item)?;
        let at = self.register.used;
        self.slots[at] = Slot {
            item,
            state: SlotState::Standing,
        };
        self.register.used = at + 1;
        self.register.changed = true;
        self.register.ledger.put(&item);
        Ok((at + 1) as u16)
    }

    /// Replaces the record of a number by one with the same key.
    pub fn correct(&mut self, number: u16, correction: R) -> Result<(), BookFault>
        ensures { Called (correcting R.keyed R.posted self.old.slots.now self.old.register number correction) result self.old.slots self.new.slots self.new.register }
    {
        let old = self.correctable(number, &correction)?;
        self.slots[usize::from(number) - 1] = Slot {
            item: correction,
            state: SlotState::Standing,
        };
        self.register.changed = true;
        self.register.ledger.take_back(&old);
        self.register.ledger.put(&correction);
        Ok(())
    }

    /// Withdraws the record of a number. Its key may then be booked under a new number.
    pub fn withdraw(&mut self, number: u16) -> Result<(), BookFault>
        ensures { Called (withdrawing R.posted self.old.slots.now self.old.register number) result self.old.slots self.new.slots self.new.register }
    {
        let gone = self.withdrawable(number)?;
        self.slots[usize::from(number) - 1] = Slot {
            item: gone,
            state: SlotState::Withdrawn,
        };
        self.register.changed = true;
        self.register.ledger.take_back(&gone);
        Ok(())
    }

    /// Closes an open book and issues a statement.
    pub fn close(&mut self) -> Result<(), BookFault>
        ensures { Called (closing self.old.slots.now self.old.register) result self.old.slots self.new.slots self.new.register }
    {
        if self.register.state != BookState::Open {
            return Err(BookFault::State);
        }
        self.register.issue();
        Ok(())
    }

    /// Reopens a closed book, and hands out the permit for it.
    pub fn reopen(&mut self) -> Result<Permit, BookFault>
        ensures { Called (reopening self.old.slots.now self.old.register) result self.old.slots self.new.slots self.new.register }
    {
        if self.register.state != BookState::Closed {
            return Err(BookFault::State);
        }
        if self.register.edition >= LAST_EDITION {
            return Err(BookFault::LastEdition);
        }
        self.register.state = BookState::Reopened;
        self.register.changed = false;
        Ok(Permit {
            number: self.register.number,
            edition: self.register.edition,
        })
    }

    /// Takes the permit, issues a statement and closes.
    pub fn reissue(&mut self, permit: Permit) -> Result<(), Unspent>
        ensures { Called (reissuing self.old.slots.now self.old.register permit) result self.old.slots self.new.slots self.new.register }
    {
        // The permit is linear: a closure of `map_err` would own it, and it could not be spent below.
        if let Err(fault) = self.reissuable(&permit) {
            return Err(Unspent { fault, permit });
        }
        permit.spend();
        self.register.issue();
        Ok(())
    }

    /// Takes the permit and closes without a statement.
    pub fn abandon(&mut self, permit: Permit) -> Result<(), Unspent>
        ensures { Called (abandoning self.old.slots.now self.old.register permit) result self.old.slots self.new.slots self.new.register }
    {
        // The permit is linear, as in `reissue`.
        if let Err(fault) = self.abandonable(&permit) {
            return Err(Unspent { fault, permit });
        }
        permit.spend();
        self.register.state = BookState::Closed;
        Ok(())
    }

    /// The account of a member.
    pub fn account(&self, member: u8) -> Result<Account, MemberFault>
        ensures { result ≡ account_of self.now.register.ledger member }
    {
        self.register.ledger.account(member)
    }

    /// The number of the standing record with a key.
    pub fn lookup(&self, key: u32) -> Option<u16>
        ensures { result ≡ lookup R.keyed key (entries self.now.slots.now self.now.register) }
    {
        self.entries().number_of(key)
    }

    /// The number of a standing record with one posting of at least these cents to a member, if there
    /// is one.
    pub fn search(&self, member: u8, cents: i64) -> Result<Option<u16>, MemberFault>
        ensures { Finds R.posted member cents (entries self.now.slots.now self.now.register) result }
    {
        if !is_member(member) {
            return Err(MemberFault::Unknown);
        }
        Ok(self.entries().number_giving(member, cents))
    }

    // Page and place stay two parameters: the page is the caller's, and any place is answered.
    /// Writes the statement of the last issue into a page from a place on.
    pub fn write_statement(&self, page: &mut [u8], at: usize) -> Result<(), StatementFault>
        ensures answer { result ≡ stating self.now.register.edition at page.old }
        ensures after { page.new ≡ page_after result at (bytes_of (statement_of self.now.register)) page.old }
    {
        if self.register.edition == 0 {
            return Err(StatementFault::NoneYet);
        }
        self.register.statement().write(page, at)?;
        Ok(())
    }

    /// The slots that are booked.
    fn entries(&self) -> Entries<'_, R>
        ensures { result.slots.now ≡ entries self.now.slots.now self.now.register }
    {
        Entries::of(self.slots, self.register.used)
    }

    /// Whether a record can be booked, or the first check that fails.
    fn bookable(&self, item: &R) -> Result<(), BookFault>
        ensures { result ≡ bookable R.keyed (capacity self.now.slots.now) self.now.register.used (entries self.now.slots.now self.now.register) self.now.register.state item.now }
    {
        let key = item.key();
        if key == 0 {
            return Err(BookFault::Blank);
        }
        if !may_change(self.register.state) {
            return Err(BookFault::State);
        }
        if let Some(n) = self.lookup(key) {
            return Err(BookFault::Stands(n));
        }
        let used = self.register.used;
        if used >= self.slots.len() || used >= MOST_SLOTS {
            return Err(BookFault::Full);
        }
        Ok(())
    }

    /// The record that a correction replaces, or the first check that fails.
    fn correctable(&self, number: u16, item: &R) -> Result<R, BookFault>
        ensures judged { result ≡ correctable R.keyed (entries self.now.slots.now self.now.register) self.now.register.state number item.now }
        ensures within { IfOk result (λ _. (1 ≤ number) × (number ≤ self.now.register.used)) }
    {
        let key = item.key();
        if key == 0 {
            return Err(BookFault::Blank);
        }
        let old = self.withdrawable(number)?;
        if old.key() != key {
            return Err(BookFault::OtherKey);
        }
        Ok(old)
    }

    /// The record that a withdrawal takes back, or the first check that fails.
    fn withdrawable(&self, number: u16) -> Result<R, BookFault>
        ensures judged { result ≡ withdrawable (entries self.now.slots.now self.now.register) self.now.register.state number }
        ensures within { IfOk result (λ _. (1 ≤ number) × (number ≤ self.now.register.used)) }
    {
        if !may_change(self.register.state) {
            return Err(BookFault::State);
        }
        self.entries()
            .record_of(number)
            .ok_or(BookFault::NotStanding)
    }

    /// Whether the book can be reissued on this permit, or the first check that fails.
    fn reissuable(&self, permit: &Permit) -> Result<(), BookFault>
        ensures { result ≡ reissuable self.now.register permit.now }
    {
        if self.register.state != BookState::Reopened {
            return Err(BookFault::State);
        }
        if permit.number != self.register.number || permit.edition != self.register.edition {
            return Err(BookFault::OtherPermit);
        }
        Ok(())
    }

    /// Whether the book can be abandoned on this permit, or the first check that fails.
    fn abandonable(&self, permit: &Permit) -> Result<(), BookFault>
        ensures { result ≡ abandonable self.now.register permit.now }
    {
        self.reissuable(permit)?;
        if self.register.changed {
            return Err(BookFault::Changed);
        }
        Ok(())
    }
}
