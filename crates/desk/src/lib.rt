//! A settlement file from its bytes to its report, however its commands are worked off: what the programs share. It
//! reserves the memory for file and page, and nothing below it reserves any.
#![tactic(auto)]

ghost use Rattle.std.specs.Prelude.{◌≡◌, ◌≤◌, ℕ, List, [], ◌∷◌, length, take, IfOk, IfSome, OnOk};
ghost use Rattle.std.specs.Io.KnownBytes.{Appends, Consumes};
ghost use Rattle.report.specs.Lines.{Added};
ghost use Rattle.desk.specs.Refused.{whole_refused};

use anyhow::anyhow;
use exchange::Exchange;
use journal::{FileFault, Header};
use record::Record;
use refusal::{PageFault, Refused};
use report::Report;
use slots::{Slot, SlotState};
use std::alloc::Global;
use std::io;
use std::io::{Read, Write};

/// One byte more than a file may have, so that a longer one shows.
pub const INPUT: usize = 32769;

/// Holds the report of any file: a line for each byte, and one for each member.
pub const PAGE: usize = 640 * 1024;

/// A way to work a file's commands off.
pub trait Desk {
    /// Works a file's commands off over a new book of this number. Reports those that are refused,
    /// and then the accounts.
    fn clear<R: Record>(
        number: u32,
        file: &[u8],
        slots: &mut [Slot<R>],
        report: &mut Report<'_>,
    ) -> Result<(), PageFault>
        // That the page stays the same is here and in `settle`: it relates before and after, which no fact in a type can.
        ensures { report.new.page.ghost_name ≡ report.old.page.ghost_name };
}

/// Reads a file, works it off, and writes its report.
pub fn run<D: Desk, I: Read, O: Write>(
    input: &mut I,
    output: &mut O,
    alloc: Global,
) -> anyhow::Result<()>
    ensures refused { OnOk result (IfSome (I.remaining input.old) (λ file. IfSome (whole_refused file) (λ line. Appends (O.contents output.old) (O.contents output.new) line))) }
    ensures grown { OnOk result ((report : List ℕ) × Appends (O.contents output.old) (O.contents output.new) report) }
{
    let mut buf = vec![in alloc; 0u8; INPUT]?;
    let mut page = vec![in alloc; 0u8; PAGE]?;
    let n = read_up_to(input, &mut buf)?;
    let file = &buf[..n];
    let mut report = Report::new(&mut page);
    settle::<D>(file, &mut report).map_err(|_| anyhow!("the report does not fit its page"))?;
    let lines = report.lines();
    output.write_all(lines)?;
    Ok(())
}

/// Reads until the buffer is full or the input ends; answers how many bytes came.
// Each read asks for all the room that is left. `read_to_end` would begin with less, where a socket of packets drops the rest
// of one, and would read again after a signal, where this answers the error.
pub fn read_up_to<I: Read>(input: &mut I, buf: &mut [u8]) -> io::Result<usize>
    ensures within { IfOk result (λ n. n ≤ length buf.old) }
    ensures bytes { IfOk result (λ n. IfSome (I.remaining input.old) (λ bytes. take n buf.new ≡ take (length buf.old) bytes)) }
    ensures taken { IfOk result (λ n. Consumes (I.remaining input.old) (I.remaining input.new) (take n buf.new)) }
{
    let mut n = 0;
    while n < buf.len() {
        let more = input.read(&mut buf[n..])?;
        if more == 0 {
            break;
        }
        n += more;
    }
    Ok(n)
}

/// Reports a file: as a whole if it is refused, and else by its commands and accounts.
pub fn settle<D: Desk>(file: &[u8], report: &mut Report<'_>) -> Result<(), PageFault>
    ensures refused { IfSome (whole_refused file.now) (λ line. Added (line ∷ []) report.old.page report.old.end report.new.page report.new.end result) }
    ensures lent { report.new.page.ghost_name ≡ report.old.page.ghost_name }
{
    match Header::read(file) {
        Err(fault) => report.refuse(0, fault.refusal()),
        // A kind is a type, so which one a code means can only be told by an arm for each.
        Ok(header) => match header.code {
            Exchange::CODE => {
                let mut slots = [Slot {
                    item: Exchange::blank(),
                    state: SlotState::Withdrawn,
                }; 64];
                D::clear(header.number, file, &mut slots, report)
            }
            _ => report.refuse(0, FileFault::UnknownKind.refusal()),
        },
    }
}
