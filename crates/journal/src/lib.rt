//! The settlement file: a header, and then commands that borrow their operands from the file's bytes.
#![tactic(auto)]

ghost use Rattle.std.specs.Prelude.{◌≡◌, ℕ, ◌-◌, ◌≤◌, List, drop, length, IfOk, Some};
ghost use Rattle.std.specs.Iterator.{at_most};
ghost use Rattle.journal.specs.Header.{header_of, told_of_file};
ghost use Rattle.journal.specs.Steps.{Gives, Step, place_of_fault, step, told_of_command};
ghost use Rattle.journal.specs.Commands.{Plain, place_of, plain, size, step_of};

use refusal::{Refusal, Refused};
use std::marker::PhantomData;
use wire::Field;

/// The fewest and the most bytes that a file may have.
const FEWEST: usize = 5;

const MOST: usize = 32768;

/// Why a file is refused as a whole.
#[derive(Clone, Copy)]
pub enum FileFault {
    Length,
    UnknownKind,
}

impl Refused for FileFault {
    ghost told = { told_of_file };

    fn refusal(&self) -> Refusal {
        match self {
            FileFault::Length => Refusal::plain(1),
            FileFault::UnknownKind => Refusal::plain(2),
        }
    }
}

/// What stands before the commands: the code of the kind of record, and the number of the book.
#[derive(Clone, Copy)]
pub struct Header {
    // A number: a kind is a type with a code of its own, and a list of them here would say each a second time.
    pub code: u8,
    pub number: u32,
}

impl Header {
    /// Reads the header of a file.
    pub fn read(bytes: &[u8]) -> Result<Header, FileFault>
        ensures { result ≡ header_of bytes.now }
    {
        if !(FEWEST..=MOST).contains(&bytes.len()) {
            return Err(FileFault::Length);
        }
        Ok(Header {
            code: bytes[0],
            number: u32::get(&bytes[1..5]),
        })
    }
}

/// Why no command can be read at a place. It ends the file.
#[derive(Clone, Copy)]
pub enum CommandFault {
    Unknown(usize),
    CutOff(usize),
}

impl CommandFault {
    /// The place of the command byte.
    pub fn place(self) -> usize
        ensures { result ≡ place_of_fault self }
    {
        match self {
            CommandFault::Unknown(place) | CommandFault::CutOff(place) => place,
        }
    }
}

impl Refused for CommandFault {
    ghost told = { told_of_command };

    fn refusal(&self) -> Refusal {
        match self {
            CommandFault::Unknown(_) => Refusal::plain(3),
            CommandFault::CutOff(_) => Refusal::plain(4),
        }
    }
}

/// A command of a settlement file, with operands that it borrows from the file's bytes.
pub trait FileCommand<'a>: Copy {
    /// The command by its place and operands.
    ghost Plain: { Type 0 };

    ghost plain: { Self → Plain };

    /// The step that a code starts at a place, in a file of records of this width, before these bytes.
    ghost step_of: { ℕ → ℕ → ℕ → List ℕ → Step Plain };

    /// How many bytes of operands a command has, where a record has this width.
    ghost size: { Plain → ℕ → ℕ };

    /// Reads the command with this code at a place, and takes its operands off the bytes after it.
    fn read(code: u8, place: usize, width: usize, rest: &mut &'a [u8]) -> Result<Self, CommandFault>
        ensures value { step plain (Some result) ≡ step_of code place width rest.old.now }
        ensures after { IfOk result (λ c. (size (plain c) width ≤ length rest.old.now) × (rest.new.now ≡ drop (size (plain c) width) rest.old.now)) };
}

/// Goes through a file of records of one width, command by command.
#[derive(Drop)]
pub struct FileReader<'a, C> {
    bytes: &'a [u8],
    width: usize,
    at: usize,
    of: PhantomData<C>,
}

impl<'a, C> FileReader<'a, C> {
    /// A reader that stands at the first command.
    pub fn new(bytes: &'a [u8], width: usize) -> FileReader<'a, C>
        ensures bytes { result.bytes.now ≡ bytes.now }
        ensures width { result.width ≡ width }
        ensures at { result.at ≡ 5 }
    {
        FileReader {
            bytes,
            width,
            at: FEWEST,
            of: PhantomData,
        }
    }
}

impl<'a, C: FileCommand<'a>> Iterator for FileReader<'a, C> {
    type Item = Result<C, CommandFault>;

    ghost next_gives = { Gives C.plain C.step_of C.size };

    ghost remaining = { λ s. at_most (length s.bytes.now - s.at) };

    /// The next command, or why there is none; nothing at the end of the file.
    fn next(&mut self) -> Option<Result<C, CommandFault>> {
        let place = self.at;
        let (code, mut rest) = self.bytes.get(place..)?.split_first()?;
        let step = C::read(*code, place, self.width, &mut rest);
        self.at = match step {
            Ok(_) => self.bytes.len() - rest.len(),
            Err(_) => self.bytes.len(),
        };
        Some(step)
    }
}

/// Goes through a file of bookings.
pub type Reader<'a> = FileReader<'a, Command<'a>>;

/// A command, with the place of its command byte and its operands.
#[derive(Clone, Copy)]
pub enum Command<'a> {
    Book { place: usize, record: &'a [u8] },
    Close { place: usize },
}

impl Command<'_> {
    /// The place of the command byte.
    pub fn place(self) -> usize
        ensures { result ≡ place_of (plain self.entry) }
    {
        match self {
            Command::Book { place, .. } | Command::Close { place } => place,
        }
    }
}

impl<'a> FileCommand<'a> for Command<'a> {
    ghost Plain = { Plain };

    ghost plain = { plain };

    ghost step_of = { step_of };

    ghost size = { size };

    fn read(
        code: u8,
        place: usize,
        width: usize,
        rest: &mut &'a [u8],
    ) -> Result<Command<'a>, CommandFault> {
        let cut_off = CommandFault::CutOff(place);
        // Each code stands where it becomes a command: as names, they would be a list beside this one.
        match code {
            0x10 => Ok(Command::Book {
                place,
                record: rest.split_off(..width).ok_or(cut_off)?,
            }),
            0x13 => Ok(Command::Close { place }),
            _ => Err(CommandFault::Unknown(place)),
        }
    }
}
