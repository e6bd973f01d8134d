//! A book over lent slots, for records of any one kind.
#![tactic(auto)]

ghost use Rattle.std.specs.Prelude.{◌≡◌, ◌≤◌};
ghost use Rattle.ledger.specs.Moves.{account_of};
ghost use Rattle.slots.specs.Calls.{Called, capacity};
ghost use Rattle.book.specs.Rules.{book_refusal, ceiling, judged};
ghost use Rattle.book.specs.Steps.{booking, closing, entries, new_register};

use ledger::{Account, Ledger};
use record::Record;
use refusal::MemberFault;
use slots::{Entries, MOST_SLOTS};

mod register;

pub use crate::register::BookFault;
use crate::register::{BookState, Register, may_change};
pub use slots::{Slot, SlotState};

/// A book over slots that its opener lends. An open book has issued no statement, and no more slots
/// are booked than may be used.
// The whole book has these calls too, some word for word, over a register of more states, another mark and another bound
// on editions: one text for both would need each contract told over a part of a register, so it would be no plainer.
#[derive(Drop)]
pub struct Book<'a, R: Record> {
    slots: &'a mut [Slot<R>],
    register: Register,
    ghost paced: { register.edition ≤ ceiling register.state },
    ghost room: { register.used ≤ capacity slots.now },
}

impl<'a, R: Record> Book<'a, R> {
    /// Opens a book over these slots.
    pub fn open(number: u32, slots: &'a mut [Slot<R>]) -> Book<'a, R>
        ensures lent { result.slots.ghost_name ≡ slots.entry.ghost_name }
        ensures same { result.slots.now ≡ slots.old }
        ensures fresh { result.register ≡ new_register number }
    {
        Book {
            slots,
            register: Register {
                number,
                edition: 0,
                state: BookState::Open,
                used: 0,
                ledger: Ledger::new(),
            },
        }
    }

    /// Books a record in the next slot; answers its number, counted from 1.
    pub fn book(&mut self, item: R) -> Result<u16, BookFault>
        ensures { Called (booking R.keyed R.posted self.old.slots.now self.old.register item) result self.old.slots self.new.slots self.new.register }
    {
        self.bookable(&item)?;
        let at = self.register.used;
        self.slots[at] = Slot {
            item,
            state: SlotState::Standing,
        };
        self.register.used = at + 1;
        self.register.ledger.put(&item);
        Ok((at + 1) as u16)
    }

    /// Closes an open book and issues a statement.
    pub fn close(&mut self) -> Result<(), BookFault>
        ensures { Called (closing self.old.slots.now self.old.register) result self.old.slots self.new.slots self.new.register }
    {
        if self.register.state != BookState::Open {
            return Err(BookFault::State);
        }
        self.register.ledger.issue();
        self.register.edition += 1;
        self.register.state = BookState::Closed;
        Ok(())
    }

    /// The account of a member.
    pub fn account(&self, member: u8) -> Result<Account, MemberFault>
        ensures { result ≡ account_of self.now.register.ledger member }
    {
        self.register.ledger.account(member)
    }

    /// The slots that are booked.
    fn entries(&self) -> Entries<'_, R>
        ensures { result.slots.now ≡ entries self.now.slots.now self.now.register }
    {
        Entries::of(self.slots, self.register.used)
    }

    /// Whether a record can be booked, or the first check that fails.
    fn bookable(&self, item: &R) -> Result<(), BookFault>
        ensures { result ≡ judged (book_refusal R.keyed (capacity self.now.slots.now) self.now.register.used (entries self.now.slots.now self.now.register) self.now.register.state item.now) }
    {
        let key = item.key();
        if key == 0 {
            return Err(BookFault::Blank);
        }
        if !may_change(self.register.state) {
            return Err(BookFault::State);
        }
        if let Some(n) = self.entries().number_of(key) {
            return Err(BookFault::Stands(n));
        }
        let used = self.register.used;
        if used >= self.slots.len() || used >= MOST_SLOTS {
            return Err(BookFault::Full);
        }
        Ok(())
    }
}
