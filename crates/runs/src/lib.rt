//! Directed runs of a book of exchanges, as tests.
#![tactic(auto)]

ghost use Rattle.std.specs.Prelude.{◌≡◌, Ok, Err, ◌≢◌};
ghost use Rattle.whole_book.specs.Rules.{Fitting};

#[cfg(test)]
mod tests {
    use exchange::Exchange;
    use ledger::Account;
    use record::Record;
    use refusal::Refused;
    use std::process::Abort;
    use std::test::Fail;
    use whole_book::{Book, BookFault, Permit, Slot, SlotState, Unspent};

    // An exchange of 12,345 kWh at 6,001 and 4,000 from member 2 to member 1, in a quarter hour and
    // over a border.
    fn exchange(period: u16, border: u8) -> Exchange {
        let p = period.to_be_bytes();
        let bytes = [
            3, p[0], p[1], border, 1, 2, 0, 0, 0x30, 0x39, 0, 0, 0x17, 0x71, 0, 0, 0x0F, 0xA0, 50,
            0,
        ];
        Exchange::read(&bytes).unwrap_or_default()
    }

    // A slot with something in it that was never booked.
    fn unused() -> Slot<Exchange> {
        Slot {
            item: exchange(1, 5),
            state: SlotState::Standing,
        }
    }

    // Checks that a call was refused as this number.
    fn refused<A: Copy, F: Refused>(
        rt: &impl Abort,
        answer: Result<A, F>,
        number: u8,
    ) -> Result<(), Fail> {
        assert_eq!(rt;
            answer.err().map(|fault| fault.refusal().number),
            Some(number)
        );
        Ok(())
    }

    // Checks a member's balance, what it was charged, and its last charge.
    fn holds(
        rt: &impl Abort,
        book: &Book<Exchange>,
        member: u8,
        balance: i64,
        charged: i64,
        last: i64,
    ) -> Result<(), Fail> {
        let expected = Account {
            balance,
            charged,
            last,
        };
        assert_eq!(rt; book.account(member).ok(), Some(expected));
        Ok(())
    }

    // A permit and its book stay apart: a struct of both with `Fitting` in its type gets no proof where a method takes it by
    // value and branches.

    // Reissues a book on its own permit.
    fn reissue_on(book: &mut Book<Exchange>, permit: Permit)
        requires { Fitting permit book.old.register }
    {
        match book.reissue(permit) {
            Ok(()) => {}
            Err(_) => unreachable(),
        }
    }

    // Reopens a book.
    fn reopen(book: &mut Book<Exchange>) -> Result<Permit, BookFault>
        ensures fits { elim result [ Ok p ↦ Fitting p book.new.register | Err _ ↦ Unit {0} ] }
        ensures same { book.new.register.number ≡ book.old.register.number }
        ensures own { elim result [ Ok p ↦ p.number ≡ book.old.register.number | Err _ ↦ Unit {0} ] }
    {
        book.reopen()
    }

    // Reopens a book and reissues it.
    fn issue_again(book: &mut Book<Exchange>) -> Result<(), BookFault> {
        let permit = reopen(book)?;
        reissue_on(book, permit);
        Ok(())
    }

    // Hands a permit to a book of another number, which gives it back.
    fn hand_to_another(book: &mut Book<Exchange>, permit: Permit) -> Unspent
        requires { permit.number ≢ book.old.register.number }
        ensures back { result.permit ≡ permit }
        ensures same { book.new.register ≡ book.old.register }
    {
        match book.reissue(permit) {
            Ok(()) => unreachable(),
            Err(unspent) => unspent,
        }
    }

    // Reopens two books of different numbers, hands the first one's permit to the second, and
    // reissues both; answers why the permit was given back, or why there was none.
    fn mix_up(book: &mut Book<Exchange>, other: &mut Book<Exchange>) -> BookFault
        requires { book.old.register.number ≢ other.old.register.number }
    {
        let permit = match reopen(book) {
            Ok(permit) => permit,
            Err(fault) => return fault,
        };
        match reopen(other) {
            Err(fault) => {
                reissue_on(book, permit);
                fault
            }
            Ok(others) => {
                let Unspent { fault, permit } = hand_to_another(other, permit);
                reissue_on(book, permit);
                reissue_on(other, others);
                fault
            }
        }
    }

    // Corrects the first record of a reopened book; its permit stays.
    fn correct_first(book: &mut Book<Exchange>, permit: &Permit, correction: Exchange)
        requires { Fitting permit.now book.old.register }
        ensures { Fitting permit.now book.new.register }
    {
        let _ = book.correct(1, correction);
    }

    // Abandons a reopened book, or reissues it where that is refused; answers why it was.
    fn abandon_or_reissue(book: &mut Book<Exchange>, permit: Permit) -> Result<(), BookFault>
        requires { Fitting permit book.old.register }
    {
        book.abandon(permit).map_err(|Unspent { fault, permit }| {
            reissue_on(book, permit);
            fault
        })
    }

    // Reopens a book, corrects its first record, and tries to abandon; answers why a call was refused.
    fn abandon_corrected(book: &mut Book<Exchange>, correction: Exchange) -> Result<(), BookFault> {
        let permit = reopen(book)?;
        correct_first(book, &permit, correction);
        abandon_or_reissue(book, permit)
    }

    #[test]
    fn no_slots(rt: HostRuntime) -> Result<(), Fail> {
        let mut slots: [Slot<Exchange>; 0] = [];
        let mut book = Book::open(7, &mut slots);
        refused(&rt, book.book(exchange(1, 5)), 22)?;
        refused(&rt, book.book(Exchange::blank()), 11)?;
        holds(&rt, &book, 1, 0, 0, 0)
    }

    #[test]
    fn edition_1000_is_the_last(rt: HostRuntime) -> Result<(), Fail> {
        let mut slots: [Slot<Exchange>; 0] = [];
        let mut book = Book::open(7, &mut slots);
        assert!(rt; book.close().is_ok());
        for _ in 1..1000u16 {
            assert!(rt; issue_again(&mut book).is_ok());
        }
        refused(&rt, issue_again(&mut book), 26)?;
        let mut page = [0; 263];
        assert!(rt; book.write_statement(&mut page, 0).is_ok());
        assert!(rt; page[0..7] == [0x30, 0, 0, 0, 7, 3, 232]);
        Ok(())
    }

    #[test]
    fn a_permit_of_another_book(rt: HostRuntime) -> Result<(), Fail> {
        let mut slots = [unused(); 1];
        let mut book = Book::open(7, &mut slots);
        let mut other_slots = [unused(); 1];
        let mut other = Book::open(8, &mut other_slots);
        assert!(rt; book.close().is_ok());
        assert!(rt; other.close().is_ok());
        assert_eq!(rt; mix_up(&mut book, &mut other).refusal().number, 27);
        holds(&rt, &book, 1, 0, 0, 0)
    }

    #[test]
    fn abandoning(rt: HostRuntime) -> Result<(), Fail> {
        let mut slots = [unused(); 1];
        let mut book = Book::open(7, &mut slots);
        assert_eq!(rt; book.book(exchange(1, 5)).ok(), Some(1));
        assert!(rt; book.close().is_ok());
        refused(&rt, abandon_corrected(&mut book, exchange(1, 5)), 28)?;
        assert!(rt; abandon_corrected(&mut book, Exchange::blank()).is_ok());
        holds(&rt, &book, 1, -61731, -61731, 0)
    }

    #[test]
    fn withdrawn_and_booked_again(rt: HostRuntime) -> Result<(), Fail> {
        let mut slots = [unused(); 2];
        let mut book = Book::open(7, &mut slots);
        let key = exchange(1, 5).key();
        assert_eq!(rt; book.lookup(key), None);
        assert_eq!(rt; book.book(exchange(1, 5)).ok(), Some(1));
        assert!(rt; book.withdraw(1).is_ok());
        refused(&rt, book.withdraw(1), 24)?;
        refused(&rt, book.correct(1, exchange(1, 5)), 24)?;
        assert_eq!(rt; book.lookup(key), None);
        holds(&rt, &book, 2, 0, 0, 0)?;
        assert_eq!(rt; book.book(exchange(1, 5)).ok(), Some(2));
        assert_eq!(rt; book.lookup(key), Some(2));
        assert_eq!(rt; book.lookup(0), None);
        refused(&rt, book.book(exchange(2, 5)), 22)?;
        holds(&rt, &book, 2, 61731, 0, 0)
    }

    #[test]
    fn more_than_4096_slots(rt: HostRuntime) -> Result<(), Fail> {
        let mut slots = vec![in rt.alloc(); unused(); 4100]?;
        let mut book = Book::open(7, &mut slots);
        for i in 0..4096u16 {
            assert_eq!(rt;
                book.book(exchange(i % 2048 + 1, (i / 2048) as u8)).ok(),
                Some(i + 1)
            );
        }
        refused(&rt, book.book(exchange(1, 2)), 22)?;
        refused(&rt, book.book(exchange(2048, 1)), 23)?;
        assert_eq!(rt; book.lookup(exchange(2048, 1).key()), Some(4096));
        assert!(rt; book.withdraw(4096).is_ok());
        refused(&rt, book.withdraw(4097), 24)?;
        refused(&rt, book.book(exchange(2048, 1)), 22)?;
        holds(&rt, &book, 2, 61731 * 4095, 0, 0)
    }

    #[test]
    fn searches(rt: HostRuntime) {
        let mut slots = [unused(); 2];
        let mut book = Book::open(7, &mut slots);
        assert!(rt; book.search(0, 0).is_err());
        assert!(rt; book.search(33, 0).is_err());
        assert_eq!(rt; book.search(2, 0).ok(), Some(None));
        assert_eq!(rt; book.book(exchange(1, 5)).ok(), Some(1));
        assert_eq!(rt; book.search(2, 49380).ok(), Some(Some(1)));
        assert_eq!(rt; book.search(2, 49381).ok(), Some(None));
        assert_eq!(rt; book.search(1, -74082).ok(), Some(Some(1)));
        assert_eq!(rt; book.search(3, -1).ok(), Some(None));
        assert!(rt; book.withdraw(1).is_ok());
        assert_eq!(rt; book.search(2, 49380).ok(), Some(None));
    }

    #[test]
    fn statement_pages(rt: HostRuntime) -> Result<(), Fail> {
        let mut slots = [unused(); 1];
        let mut book = Book::open(0x01020304, &mut slots);
        let mut page = [7; 265];
        refused(&rt, book.write_statement(&mut page, 2), 29)?;
        assert_eq!(rt; book.book(exchange(1, 5)).ok(), Some(1));
        assert!(rt; book.close().is_ok());
        refused(&rt, book.write_statement(&mut page, 3), 13)?;
        refused(&rt, book.write_statement(&mut page, usize::MAX), 13)?;
        assert!(rt; page == [7; 265]);
        assert!(rt; book.write_statement(&mut page, 2).is_ok());
        assert!(rt; page[0..9] == [7, 7, 0x30, 1, 2, 3, 4, 0, 1]);
        assert!(rt;
            page[9..25]
                == [
                    255, 255, 255, 255, 255, 255, 14, 221, 0, 0, 0, 0, 0, 0, 241, 35,
                ]
        );
        assert!(rt; page[25..265] == [0; 240]);
        Ok(())
    }
}
