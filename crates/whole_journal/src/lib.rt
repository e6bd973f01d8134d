//! The settlement file of a book that can be corrected: its commands, read by the journal's reader.
#![tactic(auto)]

ghost use Rattle.std.specs.Prelude.{◌≡◌};
ghost use Rattle.whole_journal.specs.Commands.{Plain, place_of, plain, size, step_of};

use journal::{FileCommand, FileReader};
pub use journal::{CommandFault, FileFault, Header};
use wire::Field;

/// Goes through a file of records of one width, command by command.
pub type Reader<'a> = FileReader<'a, Command<'a>>;

// The two commands of the first journal are cases here too: with one enum for both, its reader would have to refuse five.
/// A command, with the place of its command byte and its operands.
#[derive(Clone, Copy)]
pub enum Command<'a> {
    Book {
        place: usize,
        record: &'a [u8],
    },
    Correct {
        place: usize,
        number: u16,
        record: &'a [u8],
    },
    Withdraw {
        place: usize,
        number: u16,
    },
    Close {
        place: usize,
    },
    Reopen {
        place: usize,
    },
    Reissue {
        place: usize,
    },
    Abandon {
        place: usize,
    },
}

impl Command<'_> {
    /// The place of the command byte.
    pub fn place(self) -> usize
        ensures { result ≡ place_of (plain self.entry) }
    {
        match self {
            Command::Book { place, .. }
            | Command::Correct { place, .. }
            | Command::Withdraw { place, .. }
            | Command::Close { place }
            | Command::Reopen { place }
            | Command::Reissue { place }
            | Command::Abandon { place } => place,
        }
    }
}

impl<'a> FileCommand<'a> for Command<'a> {
    ghost Plain = { Plain };

    ghost plain = { plain };

    ghost step_of = { step_of };

    ghost size = { size };

    fn read(
        code: u8,
        place: usize,
        width: usize,
        rest: &mut &'a [u8],
    ) -> Result<Command<'a>, CommandFault> {
        let cut_off = CommandFault::CutOff(place);
        // Each code stands where it becomes a command: as names, they would be a list beside this one.
        match code {
            0x10 => Ok(Command::Book {
                place,
                record: rest.split_off(..width).ok_or(cut_off)?,
            }),
            0x11 => {
                let number = u16::get(rest.split_off(..2).ok_or(cut_off)?);
                let record = rest.split_off(..width).ok_or(cut_off)?;
                Ok(Command::Correct {
                    place,
                    number,
                    record,
                })
            }
            0x12 => Ok(Command::Withdraw {
                place,
                number: u16::get(rest.split_off(..2).ok_or(cut_off)?),
            }),
            0x13 => Ok(Command::Close { place }),
            0x14 => Ok(Command::Reopen { place }),
            0x15 => Ok(Command::Reissue { place }),
            0x16 => Ok(Command::Abandon { place }),
            _ => Err(CommandFault::Unknown(place)),
        }
    }
}
