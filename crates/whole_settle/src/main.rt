//! Works off one settlement file on standard input, and prints its report.
#![tactic(auto)]

ghost use Rattle.std.specs.Prelude.{◌≡◌, Some, None};
ghost use Rattle.std.proofs.Props.{props};
ghost use Rattle.whole_settle.specs.Held.{Held, left_by};

use desk::{Desk, run};
use record::Record;
use refusal::{PageFault, Refusal};
use report::Report;
use slots::Slot;
use whole_book::{Book, BookFault, Permit, Unspent};
use whole_journal::{Command, Reader};

/// Works all commands off.
struct AllCommands;

fn main(rt: HostRuntime) -> anyhow::Result<()> {
    run::<AllCommands, _, _>(&mut rt.stdin(), &mut rt.stdout(), rt.alloc())
}

impl Desk for AllCommands {
    /// A page that is too short does not stop the file, since a permit may be held. A book that is
    /// still reopened at the end is reissued.
    fn clear<R: Record>(
        number: u32,
        file: &[u8],
        slots: &mut [Slot<R>],
        report: &mut Report<'_>,
    ) -> Result<(), PageFault> {
        let mut till = Till::open(number, slots);
        let mut written = Ok(());
        for step in Reader::new(file, R::WIDTH) {
            let (place, done) = match step {
                Ok(command) => (command.place(), till.work(command)),
                Err(fault) => (fault.place(), Err(fault.into())),
            };
            if let (Ok(()), Err(refusal)) = (written, done) {
                written = report.refuse(place, refusal);
            }
        }
        let book = till.end();
        written?;
        report.accounts(|member| book.account(member))
    }
}

/// A book, with the permit that is held while it is reopened.
struct Till<'a, R: Record> {
    book: Book<'a, R>,
    held: Option<Permit>,
    ghost own: { Held held book.register } by { Prim.hlevel props },
}

impl<'a, R: Record> Till<'a, R> {
    /// Opens a book.
    fn open(number: u32, slots: &'a mut [Slot<R>]) -> Till<'a, R> {
        Till {
            book: Book::open(number, slots),
            held: None,
        }
    }

    /// Works off one command, unless it is refused.
    fn work(&mut self, command: Command) -> Result<(), Refusal> {
        // An arm for each command of the format: it is data from the file, and each has operands of its own.
        match command {
            Command::Book { record, .. } => {
                self.book.book(R::read(record)?)?;
            }
            Command::Correct { number, record, .. } => {
                self.book.correct(number, R::read(record)?)?;
            }
            Command::Withdraw { number, .. } => self.book.withdraw(number)?,
            Command::Close { .. } => self.book.close()?,
            Command::Reopen { .. } => {
                let permit = self.book.reopen()?;
                keep(&mut self.held, permit);
            }
            Command::Reissue { .. } => {
                let permit = self.held.take().ok_or(BookFault::State)?;
                keep_unspent(&mut self.held, self.book.reissue(permit))?;
            }
            Command::Abandon { .. } => {
                let permit = self.held.take().ok_or(BookFault::State)?;
                keep_unspent(&mut self.held, self.book.abandon(permit))?;
            }
        }
        Ok(())
    }

    /// Reissues a book that is still reopened.
    fn end(self) -> Book<'a, R>
        ensures { Held None result.register }
    {
        let Till { mut book, held } = self;
        reissue_held(&mut book, held);
        book
    }
}

/// Reissues a book that is still reopened.
fn reissue_held<R: Record>(book: &mut Book<R>, held: Option<Permit>)
    requires { Held held book.old.register }
    ensures { Held None book.new.register }
{
    match held {
        None => {}
        Some(permit) => match book.reissue(permit) {
            Ok(()) => {}
            Err(_) => unreachable(),
        },
    }
}

/// Holds the permit that a book handed out.
fn keep(held: &mut Option<Permit>, permit: Permit)
    requires { held.old ≡ None }
    ensures { held.new ≡ Some permit }
{
    match held.replace(permit) {
        None => {}
        Some(_) => unreachable(),
    }
}

/// Holds a permit on that a book gave back; answers why it did.
fn keep_unspent(held: &mut Option<Permit>, answer: Result<(), Unspent>) -> Result<(), BookFault>
    requires { held.old ≡ None }
    ensures { held.new ≡ left_by answer }
{
    // Of what a closure under `map_err` changes, `held` here, a proof would know nothing.
    match answer {
        Ok(()) => Ok(()),
        Err(Unspent { fault, permit }) => {
            keep(held, permit);
            Err(fault)
        }
    }
}

// The other program tries most of these files too: each shows that its own desk works them off.
#[cfg(test)]
mod tests {
    use super::AllCommands;
    use desk::{INPUT, PAGE, read_up_to, settle};
    use report::Report;
    use std::alloc::{AllocError, Global};
    use std::io::Cursor;
    use std::process::Abort;
    use std::test::*;

    // Checks the report of a file, and that the page after it stays as it was.
    fn reports(rt: &impl Abort, file: &[u8], expected: &[u8]) -> Result<(), Fail> {
        let mut page = [7; 80];
        let mut report = Report::new(&mut page);
        settle::<AllCommands>(file, &mut report).map_err(|_| Fail::new("the page is too short"))?;
        assert!(rt; report.lines() == expected);
        let end = report.end();
        for byte in &page[end..] {
            assert_eq!(rt; *byte, 7);
        }
        Ok(())
    }

    #[test]
    fn files_of_a_wrong_length(rt: HostRuntime) -> Result<(), Fail> {
        reports(&rt, b"", b"R 0 file 1\n")?;
        reports(&rt, &[1, 0, 0, 0], b"R 0 file 1\n")?;
        reports(&rt, &[9; 32769], b"R 0 file 1\n")
    }

    #[test]
    fn unknown_kinds(rt: HostRuntime) -> Result<(), Fail> {
        reports(&rt, &[0, 0, 0, 0, 7], b"R 0 file 2\n")?;
        reports(&rt, &[9; 32768], b"R 0 file 2\n")
    }

    #[test]
    fn files_without_commands(rt: HostRuntime) -> Result<(), Fail> {
        reports(&rt, &[1, 0, 0, 0, 7], b"")
    }

    // A file of exchanges for book 7, with these bytes after the header.
    fn file_of(alloc: Global, commands: &[u8]) -> Result<Vec<u8>, AllocError> {
        let mut file = Vec::from_slice(alloc, &[1, 0, 0, 0, 7])?;
        file.extend_from_slice(commands)?;
        Ok(file)
    }

    // Adds an exchange of 12,345 kWh in a quarter hour from this member to member 1, at 6,001 and
    // this price: 61,731 cents at 4,000.
    fn add_exchange(
        file: &mut Vec<u8>,
        period: u8,
        exporter: u8,
        price: u16,
    ) -> Result<(), AllocError> {
        let p = price.to_be_bytes();
        file.extend_from_slice(&[
            3, 0, period, 5, 1, exporter, 0, 0, 48, 57, 0, 0, 23, 113, 0, 0, p[0], p[1], 50, 0,
        ])
    }

    // A file that books two exchanges and closes.
    fn two_booked(alloc: Global) -> Result<Vec<u8>, AllocError> {
        let mut file = file_of(alloc, &[0x10])?;
        add_exchange(&mut file, 1, 2, 4000)?;
        file.extend_from_slice(&[0x10])?;
        add_exchange(&mut file, 2, 3, 4000)?;
        file.extend_from_slice(&[0x13])?;
        Ok(file)
    }

    #[test]
    fn open_books_show_their_balances(rt: HostRuntime) -> Result<(), Fail> {
        let mut file = file_of(rt.alloc(), &[0x10])?;
        add_exchange(&mut file, 1, 32, 4000)?;
        reports(&rt, &file, b"B 1 -61731 0\nB 32 61731 0\n")
    }

    #[test]
    fn the_65th_booking_finds_no_slot(rt: HostRuntime) -> Result<(), Fail> {
        let mut file = file_of(rt.alloc(), &[])?;
        for period in 1..66u8 {
            file.extend_from_slice(&[0x10])?;
            add_exchange(&mut file, period, 2, 4000)?;
        }
        reports(
            &rt,
            &file,
            b"R 1349 book 22\nB 1 -3950784 0\nB 2 3950784 0\n",
        )
    }

    #[test]
    fn a_book_left_reopened_is_reissued(rt: HostRuntime) -> Result<(), Fail> {
        let mut file = two_booked(rt.alloc())?;
        file.extend_from_slice(&[0x14, 0x12, 0, 2])?;
        reports(&rt, &file, b"B 1 -61731 -61731\nB 2 61731 61731\n")
    }

    #[test]
    fn a_book_left_reopened_is_reissued_after_a_fault(rt: HostRuntime) -> Result<(), Fail> {
        let mut file = two_booked(rt.alloc())?;
        file.extend_from_slice(&[0x14, 0x12, 0, 1, 0x12, 0])?;
        reports(
            &rt,
            &file,
            b"R 52 file 4\nB 1 -61731 -61731\nB 3 61731 61731\n",
        )
    }

    #[test]
    fn the_record_of_the_number_is_corrected(rt: HostRuntime) -> Result<(), Fail> {
        let mut file = two_booked(rt.alloc())?;
        file.extend_from_slice(&[0x14, 0x11, 0, 2])?;
        add_exchange(&mut file, 2, 3, 6001)?;
        file.extend_from_slice(&[0x11, 0, 1])?;
        add_exchange(&mut file, 2, 3, 6001)?;
        file.extend_from_slice(&[0x15])?;
        reports(
            &rt,
            &file,
            b"R 72 book 25\nB 1 -135813 -135813\nB 2 61731 61731\nB 3 74082 74082\n",
        )
    }

    #[test]
    fn a_changed_book_is_reissued_and_not_abandoned(rt: HostRuntime) -> Result<(), Fail> {
        let mut file = two_booked(rt.alloc())?;
        file.extend_from_slice(&[0x14, 0x12, 0, 2, 0x16, 0x15, 0x15])?;
        reports(
            &rt,
            &file,
            b"R 52 book 28\nR 54 book 21\nB 1 -61731 -61731\nB 2 61731 61731\n",
        )
    }

    #[test]
    fn no_permit_is_held(rt: HostRuntime) -> Result<(), Fail> {
        let mut file = file_of(
            rt.alloc(),
            &[0x15, 0x16, 0x13, 0x15, 0x16, 0x14, 0x16, 0x16],
        )?;
        reports(
            &rt,
            &file,
            b"R 5 book 21\nR 6 book 21\nR 8 book 21\nR 9 book 21\nR 12 book 21\n",
        )
    }

    #[test]
    fn edition_1000_is_the_last(rt: HostRuntime) -> Result<(), Fail> {
        let mut file = file_of(rt.alloc(), &[0x13, 0x14, 0x16])?;
        for _ in 1..1000u16 {
            file.extend_from_slice(&[0x14, 0x15])?;
        }
        file.extend_from_slice(&[0x14])?;
        reports(&rt, &file, b"R 2006 book 26\n")
    }

    #[test]
    fn a_page_too_short_for_a_reopened_book(rt: HostRuntime) -> Result<(), Fail> {
        let mut page = [7; 10];
        assert!(rt;
            settle::<AllCommands>(
                &[1, 0, 0, 0, 7, 0x13, 0x14, 0x14],
                &mut Report::new(&mut page)
            )
            .is_err()
        );
        for byte in &page {
            assert_eq!(rt; *byte, 7);
        }
        Ok(())
    }

    #[test]
    fn the_longest_report_fits_its_page(rt: HostRuntime) -> Result<(), Fail> {
        let mut page = vec![in rt.alloc(); 0u8; PAGE]?;
        let mut file = [0x13; 32768];
        file[0] = 1;
        assert!(rt; settle::<AllCommands>(&file, &mut Report::new(&mut page)).is_ok());
        Ok(())
    }

    #[test]
    fn longer_inputs_are_refused_unread(rt: HostRuntime) -> Result<(), Fail> {
        let mut input = [0; INPUT];
        let n = read_up_to(&mut Cursor::new(&[1; 40000]), &mut input)?;
        assert!(rt; n == INPUT);
        reports(&rt, &input[0..n], b"R 0 file 1\n")?;
        reports(&rt, &input[0..n - 1], b"R 5 file 3\n")
    }

    #[test]
    fn unknown_commands_end_the_file(rt: HostRuntime) -> Result<(), Fail> {
        reports(&rt, &[1, 0, 0, 0, 7, 0x13, 0x17, 0x13], b"R 6 file 3\n")?;
        reports(&rt, &[1; 32768], b"R 5 file 3\n")
    }

    #[test]
    fn records_cut_off(rt: HostRuntime) -> Result<(), Fail> {
        reports(&rt, &[1, 0, 0, 0, 7, 0x10], b"R 5 file 4\n")?;
        reports(
            &rt,
            &[
                0x01, 0, 0, 0, 7, 0x10, 3, 0, 1, 5, 1, 2, 0, 0, 48, 57, 0, 0, 23, 113, 0, 0, 15,
                160, 50,
            ],
            b"R 5 file 4\n",
        )
    }

    #[test]
    fn a_page_too_short(rt: HostRuntime) -> Result<(), Fail> {
        let mut page = [7; 10];
        assert!(rt; settle::<AllCommands>(&[1, 0, 0, 0], &mut Report::new(&mut page)).is_err());
        for byte in &page {
            assert_eq!(rt; *byte, 7);
        }
        Ok(())
    }
}
