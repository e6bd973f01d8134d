//! Executes reckoned examples, and prints each with its result.
#![tactic(auto)]

use amounts::{cut, nearest_cent};
use book::{Book, BookFault};
use exchange::Exchange;
use ledger::Account;
use record::{Posting, Record};
use refusal::{Refusal, Refused};
use slots::{Slot, SlotState};
use std::io;
use wire::{Field, has_room};

/// Automatic reserves, quarter hour 1, border 5, importer 1, exporter 2, 12,345 kWh at 6,001 and
/// 4,000, half of the income each.
const SAMPLE: [u8; 20] = [
    3, 0, 1, 5, 1, 2, 0, 0, 0x30, 0x39, 0, 0, 0x17, 0x71, 0, 0, 0x0F, 0xA0, 50, 0,
];

fn main(rt: HostRuntime) -> io::Result<()> {
    nearest_cents(&rt)?;
    cuts(&rt)?;
    unsigned_fields(&rt)?;
    signed_fields(&rt)?;
    exchanges(&rt)?;
    bounds(&rt)?;
    orders(&rt)?;
    pages(&rt)?;
    books(&rt)
}

fn nearest_cents(rt: &HostRuntime) -> io::Result<()> {
    for v in [499, 500, -500, -501, 1499, 1500, i64::MAX, i64::MIN] {
        let cents = nearest_cent(v);
        println!(rt; "nearest cent of {v}: {cents}")?;
    }
    Ok(())
}

fn cuts(rt: &HostRuntime) -> io::Result<()> {
    for rent in [-7, 7, 0, i64::MAX, i64::MIN] {
        let mut parts = [0; 3];
        cut(&[rent; 3], 3, &mut parts);
        println!(rt; "{rent} cut in three: {parts:?}")?;
    }
    Ok(())
}

fn unsigned_fields(rt: &HostRuntime) -> io::Result<()> {
    let mut page = [0; 15];
    200u8.put(&mut page[0..1]);
    40_000u16.put(&mut page[1..3]);
    3_000_000_000u32.put(&mut page[3..7]);
    10_000_000_000_000_000_000u64.put(&mut page[7..15]);
    println!(rt; "unsigned fields: {page:?}")?;
    let a = u8::get(&page[0..1]);
    let b = u16::get(&page[1..3]);
    let c = u32::get(&page[3..7]);
    let d = u64::get(&page[7..15]);
    println!(rt; "read back: {a} {b} {c} {d}")
}

// Apart from the unsigned ones: one function for both would have to ask for the width of each of four types.
fn signed_fields(rt: &HostRuntime) -> io::Result<()> {
    let mut page = [0; 15];
    (-100i8).put(&mut page[0..1]);
    (-20_000i16).put(&mut page[1..3]);
    (-9_999_999i32).put(&mut page[3..7]);
    (-61_731i64).put(&mut page[7..15]);
    println!(rt; "signed fields: {page:?}")?;
    let a = i8::get(&page[0..1]);
    let b = i16::get(&page[1..3]);
    let c = i32::get(&page[3..7]);
    let d = i64::get(&page[7..15]);
    println!(rt; "read back: {a} {b} {c} {d}")
}

/// Prints a refusal after its example's name.
fn show_refusal(rt: &HostRuntime, name: &str, refusal: Refusal) -> io::Result<()> {
    println!(rt; "{name}: refused {refusal}")
}

/// Reads an exchange and prints its key and postings, or why it is refused.
fn show(rt: &HostRuntime, name: &str, bytes: &[u8]) -> io::Result<()> {
    match Exchange::read(bytes) {
        Err(fault) => show_refusal(rt, name, fault.refusal()),
        Ok(exchange) => {
            let key = exchange.key();
            print!(rt; "{name}: key {key}, postings")?;
            // By place, since it is `posting` that is shown.
            for at in 0..exchange.count() {
                let Posting { member, cents } = exchange.posting(at);
                print!(rt; " {member}:{cents}")?;
            }
            println!(rt; "")
        }
    }
}

/// Shows the sample with some bytes replaced.
fn show_with(rt: &HostRuntime, name: &str, at: usize, bytes: &[u8]) -> io::Result<()> {
    let mut sample = SAMPLE;
    if has_room(&sample, at, bytes.len()) {
        sample[at..at + bytes.len()].copy_from_slice(bytes);
    }
    show(rt, name, &sample)
}

fn exchanges(rt: &HostRuntime) -> io::Result<()> {
    show(rt, "12,345 kWh at 6,001 and 4,000", &SAMPLE)?;
    show_with(
        rt,
        "1,000 kWh at 1,001 and 1,000",
        6,
        &[0, 0, 3, 0xE8, 0, 0, 3, 0xE9, 0, 0, 3, 0xE8],
    )?;
    show_with(
        rt,
        "both prices below zero",
        10,
        &[255, 255, 255, 255, 255, 255, 255, 254],
    )?;
    show_with(rt, "all to the importer", 18, &[100])?;
    show_with(rt, "nothing to the importer", 18, &[0])?;
    show_with(rt, "the highest border", 3, &[255])
}

fn bounds(rt: &HostRuntime) -> io::Result<()> {
    show_with(rt, "product 0", 0, &[0])?;
    show_with(rt, "product 4", 0, &[4])?;
    show_with(rt, "period 0", 1, &[0, 0])?;
    show_with(rt, "period 2,980", 1, &2980u16.to_be_bytes())?;
    show_with(rt, "period 2,981", 1, &2981u16.to_be_bytes())?;
    show_with(rt, "importer 0", 4, &[0])?;
    show_with(rt, "importer 33", 4, &[33])?;
    show_with(rt, "exporter 0", 5, &[0])?;
    show_with(rt, "exporter 33", 5, &[33])?;
    show_with(rt, "volume 0", 6, &[0, 0, 0, 0])?;
    show_with(rt, "volume 1,000,000", 6, &1_000_000u32.to_be_bytes())?;
    show_with(rt, "volume 1,000,001", 6, &1_000_001u32.to_be_bytes())
}

fn orders(rt: &HostRuntime) -> io::Result<()> {
    show_with(
        rt,
        "importing price 10,000,000",
        10,
        &10_000_000i32.to_be_bytes(),
    )?;
    show_with(
        rt,
        "importing price -10,000,000",
        10,
        &(-10_000_000i32).to_be_bytes(),
    )?;
    show_with(
        rt,
        "exporting price 10,000,000",
        14,
        &10_000_000i32.to_be_bytes(),
    )?;
    show_with(
        rt,
        "exporting price -10,000,000",
        14,
        &(-10_000_000i32).to_be_bytes(),
    )?;
    show_with(rt, "percentage 101", 18, &[101])?;
    show_with(rt, "reserved 1", 19, &[1])?;
    show_with(rt, "importer 2 and exporter 2", 4, &[2])?;
    show_with(
        rt,
        "importing price below the exporting price",
        10,
        &3999i32.to_be_bytes(),
    )?;
    show(rt, "19 bytes", &SAMPLE[0..19])?;
    show(rt, "no bytes", &[])
}

/// Writes an exchange into a page of 24 bytes and prints the page.
fn show_written(rt: &HostRuntime, name: &str, exchange: &Exchange, at: usize) -> io::Result<()> {
    let mut page = [7; 24];
    match exchange.write(&mut page, at) {
        Err(fault) => show_refusal(rt, name, fault.refusal())?,
        Ok(()) => println!(rt; "{name}: written")?,
    }
    println!(rt; "{page:?}")
}

fn pages(rt: &HostRuntime) -> io::Result<()> {
    if let Ok(exchange) = Exchange::read(&SAMPLE) {
        show_written(rt, "at 0", &exchange, 0)?;
        show_written(rt, "at 4, where it just fits", &exchange, 4)?;
        show_written(rt, "at 5", &exchange, 5)?;
        show_written(rt, "past the page", &exchange, usize::MAX)?;
    }
    show_written(rt, "the blank", &Exchange::blank(), usize::MAX)
}

/// Books an exchange and prints its number, or why it is refused.
fn show_booked(rt: &HostRuntime, name: &str, booked: Result<u16, BookFault>) -> io::Result<()> {
    match booked {
        Ok(number) => println!(rt; "{name}: number {number}"),
        Err(fault) => show_refusal(rt, name, fault.refusal()),
    }
}

fn show_account(rt: &HostRuntime, book: &Book<Exchange>, member: u8) -> io::Result<()> {
    match book.account(member) {
        Err(fault) => {
            print!(rt; "member {member} ")?;
            show_refusal(rt, "account", fault.refusal())
        }
        Ok(
            Account {
                balance,
                charged,
                last,
            },
        ) => println!(rt; "member {member} account: {balance} {charged} {last}"),
    }
}

fn books(rt: &HostRuntime) -> io::Result<()> {
    let Ok(exchange) = Exchange::read(&SAMPLE) else {
        return Ok(());
    };
    let mut no_slots: [Slot<Exchange>; 0] = [];
    let mut none = Book::open(1, &mut no_slots);
    show_booked(rt, "first booking without slots", none.book(exchange))?;
    let mut slots = [Slot {
        item: exchange,
        state: SlotState::Standing,
    }; 2];
    let mut book = Book::open(2, &mut slots);
    show_booked(rt, "blank", book.book(Exchange::blank()))?;
    show_booked(
        rt,
        "first booking over slots that hold something",
        book.book(exchange),
    )?;
    show_booked(rt, "the same key again", book.book(exchange))?;
    for member in 0..4u8 {
        show_account(rt, &book, member)?;
    }
    if let Err(fault) = book.close() {
        show_refusal(rt, "closing", fault.refusal())?;
    }
    show_booked(rt, "booking in a closed book", book.book(exchange))?;
    if let Err(fault) = book.close() {
        show_refusal(rt, "closing again", fault.refusal())?;
    }
    show_account(rt, &book, 1)?;
    show_account(rt, &book, 2)?;
    show_account(rt, &book, 33)
}
