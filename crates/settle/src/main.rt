//! Works off one settlement file on standard input, and prints its report.
#![tactic(auto)]

use book::Book;
use desk::{Desk, run};
use journal::{Command, Reader};
use record::Record;
use refusal::{PageFault, Refusal};
use report::Report;
use slots::Slot;

/// Books and closes.
struct BookAndClose;

fn main(rt: HostRuntime) -> anyhow::Result<()> {
    run::<BookAndClose, _, _>(&mut rt.stdin(), &mut rt.stdout(), rt.alloc())
}

impl Desk for BookAndClose {
    fn clear<R: Record>(
        number: u32,
        file: &[u8],
        slots: &mut [Slot<R>],
        report: &mut Report<'_>,
    ) -> Result<(), PageFault> {
        let mut book = Book::open(number, slots);
        for step in Reader::new(file, R::WIDTH) {
            let (place, done) = match step {
                Ok(command) => (command.place(), work(&mut book, command)),
                Err(fault) => (fault.place(), Err(fault.into())),
            };
            if let Err(refusal) = done {
                report.refuse(place, refusal)?;
            }
        }
        report.accounts(|member| book.account(member))
    }
}

/// Works off one command, unless it is refused.
fn work<R: Record>(book: &mut Book<R>, command: Command) -> Result<(), Refusal> {
    // An arm for each command of the format: it is data from the file, and each has operands of its own.
    match command {
        Command::Book { record, .. } => {
            book.book(R::read(record)?)?;
        }
        Command::Close { .. } => book.close()?,
    }
    Ok(())
}

// The other program tries most of these files too: each shows that its own desk works them off.
#[cfg(test)]
mod tests {
    use super::BookAndClose;
    use desk::{INPUT, PAGE, read_up_to, settle};
    use report::Report;
    use std::io::Cursor;
    use std::process::Abort;
    use std::test::Fail;

    // Checks the report of a file, and that the page after it stays as it was.
    fn reports(rt: &impl Abort, file: &[u8], expected: &[u8]) -> Result<(), Fail> {
        let mut page = [7; 60];
        let mut report = Report::new(&mut page);
        settle::<BookAndClose>(file, &mut report).map_err(|_| Fail::new("the page is too short"))?;
        assert!(rt; report.lines() == expected);
        let end = report.end();
        for byte in &page[end..] {
            assert_eq!(rt; *byte, 7);
        }
        Ok(())
    }

    #[test]
    fn files_of_a_wrong_length(rt: HostRuntime) -> Result<(), Fail> {
        reports(&rt, b"", b"R 0 file 1\n")?;
        reports(&rt, &[1, 0, 0, 0], b"R 0 file 1\n")?;
        reports(&rt, &[9; 32769], b"R 0 file 1\n")
    }

    #[test]
    fn unknown_kinds(rt: HostRuntime) -> Result<(), Fail> {
        reports(&rt, &[0, 0, 0, 0, 7], b"R 0 file 2\n")?;
        reports(&rt, &[9; 32768], b"R 0 file 2\n")
    }

    #[test]
    fn files_without_commands(rt: HostRuntime) -> Result<(), Fail> {
        reports(&rt, &[1, 0, 0, 0, 7], b"")
    }

    #[test]
    fn open_books_show_their_balances(rt: HostRuntime) -> Result<(), Fail> {
        reports(
            &rt,
            &[
                1, 0, 0, 0, 7, 0x10, 3, 0, 1, 5, 1, 32, 0, 0, 48, 57, 0, 0, 23, 113, 0, 0, 15, 160,
                50, 0,
            ],
            b"B 1 -61731 0\nB 32 61731 0\n",
        )
    }

    #[test]
    fn the_65th_booking_finds_no_slot(rt: HostRuntime) -> Result<(), Fail> {
        let mut file = Vec::from_slice(rt.alloc(), &[1, 0, 0, 0, 0])?;
        for period in 1..66u8 {
            file.extend_from_slice(&[
                0x10, 3, 0, period, 5, 1, 2, 0, 0, 48, 57, 0, 0, 23, 113, 0, 0, 15, 160, 50, 0,
            ])?;
        }
        reports(
            &rt,
            &file,
            b"R 1349 book 22\nB 1 -3950784 0\nB 2 3950784 0\n",
        )
    }

    #[test]
    fn the_longest_report_fits_its_page(rt: HostRuntime) -> Result<(), Fail> {
        let mut page = vec![in rt.alloc(); 0u8; PAGE]?;
        let mut file = [0x13; 32768];
        file[0] = 1;
        assert!(rt; settle::<BookAndClose>(&file, &mut Report::new(&mut page)).is_ok());
        Ok(())
    }

    #[test]
    fn longer_inputs_are_refused_unread(rt: HostRuntime) -> Result<(), Fail> {
        let mut input = [0; INPUT];
        let n = read_up_to(&mut Cursor::new(&[1; 40000]), &mut input)?;
        assert!(rt; n == INPUT);
        reports(&rt, &input[0..n], b"R 0 file 1\n")?;
        reports(&rt, &input[0..n - 1], b"R 5 file 3\n")
    }

    #[test]
    fn unknown_commands_end_the_file(rt: HostRuntime) -> Result<(), Fail> {
        reports(&rt, &[1, 0, 0, 0, 7, 0x13, 0x17, 0x13], b"R 6 file 3\n")?;
        reports(&rt, &[1; 32768], b"R 5 file 3\n")
    }

    #[test]
    fn records_cut_off(rt: HostRuntime) -> Result<(), Fail> {
        reports(&rt, &[1, 0, 0, 0, 7, 0x10], b"R 5 file 4\n")?;
        reports(
            &rt,
            &[
                0x01, 0, 0, 0, 7, 0x10, 3, 0, 1, 5, 1, 2, 0, 0, 48, 57, 0, 0, 23, 113, 0, 0, 15,
                160, 50,
            ],
            b"R 5 file 4\n",
        )
    }

    #[test]
    fn a_page_too_short(rt: HostRuntime) {
        let mut page = [7; 10];
        assert!(rt; settle::<BookAndClose>(&[1, 0, 0, 0], &mut Report::new(&mut page)).is_err());
        for byte in &page {
            assert_eq!(rt; *byte, 7);
        }
    }
}
