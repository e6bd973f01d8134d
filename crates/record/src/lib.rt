//! What a kind of record means: its key, its postings and its bytes.
#![tactic(auto)]

ghost use Rattle.std.specs.Prelude.{◌≡◌, ℕ, ◌<◌, ◌≤◌, List, [], ◌++◌, length, take, drop, pos, Some, Ok, Err, Result, ◌==◌, ◌≢◌, slice_index_or};
ghost use Rattle.std.specs.List.{AllByRecursion};
ghost use Rattle.refusal.specs.Told.{plain};
ghost use Rattle.wire.specs.Bytes.{Byte, page_after};
ghost use Rattle.record.specs.declared.Posting.{Posting};
ghost use Rattle.record.specs.Meaning.{Fair, no_posting, post, total};
ghost use Rattle.record.specs.Reading.{OfRecord, answer_of, check, in_range, is_member, is_period, refusal_of, within};
ghost use Rattle.record.specs.Writing.{told_of, writes};

use arrayvec::ArrayVec;
use refusal::{Refusal, Refused};

/// An amount in cents for one member: above zero it is paid to the member, below zero by it. The default, of no member,
/// is what a place beyond the last answers.
#[derive(Clone, Copy, Default)]
pub struct Posting {
    pub member: u8,
    pub cents: i64,
}

/// All postings of one record.
pub type Postings = ArrayVec<Posting, 64>;

impl Posting {
    /// A posting of these cents to this member.
    pub fn to(member: u8, cents: i64) -> Posting
        ensures { result ≡ post member cents }
    {
        Posting { member, cents }
    }
}

/// Why a record is not written into a page.
#[derive(Clone, Copy)]
pub enum WriteFault {
    Blank,
    PageTooShort,
}

impl Refused for WriteFault {
    ghost told = { told_of };

    fn refusal(&self) -> Refusal {
        match self {
            WriteFault::Blank => Refusal::plain(11),
            WriteFault::PageTooShort => Refusal::plain(13),
        }
    }
}

/// A kind of record. Its fields are plain and closed, and fields that do not pass the checks of
/// reading count as the blank record, so the laws hold of every value of the type.
pub trait Record: Copy {
    /// What stands for the kind in a file.
    const CODE: u8;

    /// The width in bytes.
    const WIDTH: usize;

    /// The faults that reading can find, in their order.
    type Fault: Refused;

    ghost CODE: { ℕ };

    ghost WIDTH: { ℕ };

    ghost empty: { Self };

    ghost keyed: { Self → ℕ };

    ghost posted: { Self → List Posting };

    ghost written: { Self → List ℕ };

    ghost reads: { List ℕ → Result Self Self.Fault };

    fn blank() -> Self
        ensures { result ≡ empty };

    /// Reads a record from the first bytes, up to its width.
    fn read(bytes: &[u8]) -> Result<Self, Self::Fault>
        ensures { result ≡ reads bytes.now };

    /// The key: 0 for the blank record alone.
    fn key(&self) -> u32
        ensures { result ≡ keyed self.now };

    /// How many postings the record has.
    fn count(&self) -> usize
        ensures { result ≡ length (posted self.now) };

    /// The posting at a place counted from 0.
    // Every place has an answer: beyond the last it is member 0 and 0 cents, and no Option.
    fn posting(&self, at: usize) -> Posting
        ensures { result ≡ slice_index_or (posted self.now) at no_posting };

    // Page and place stay two parameters: the page is the caller's, and any place is answered.
    /// Writes the record into a page from a place on.
    fn write(&self, page: &mut [u8], at: usize) -> Result<(), WriteFault>
        ensures answer { result ≡ writes (keyed self.now) WIDTH at page.old }
        ensures after { page.new ≡ page_after result at (written self.now) page.old };

    /// Whether the record has this key. A kind compares its own fields first, and runs the checks of
    /// reading only where they agree.
    fn has_key(&self, key: u32) -> bool
        ensures { result ≡ (keyed self.now == key) }
    {
        self.key() == key
    }

    /// Lays all postings into a list at once, in place of what it holds.
    fn fill(&self, list: &mut Postings)
        ensures { list.new.items ≡ posted self.now }
    {
        list.clear();
        // By number, since `posting` answers by its place: there is no slice to go over.
        for at in 0..self.count() {
            list.push(self.posting(at));
        }
    }

    /// All postings at once, in a list of their own. It is a kibibyte: where the list is at hand, `fill` costs less.
    fn postings(&self) -> Postings
        ensures { result.items ≡ posted self.now }
    {
        let mut list = Postings::new();
        self.fill(&mut list);
        list
    }

    /// The width is at least 1 byte.
    ghost broad: { 1 ≤ WIDTH };

    /// The amounts of one record add up to zero.
    ghost zero: { (r : Self) → total (posted r) ≡ pos 0 };

    ghost few: { (r : Self) → length (posted r) ≤ 64 };

    /// Each posting is to a member, and within the limit of one amount.
    ghost fair: { (r : Self) → AllByRecursion Fair (posted r) };

    ghost unkeyed: { keyed empty ≡ 0 };

    /// A record with key 0 has no postings: it counts as the blank.
    ghost alone: { (r : Self) → keyed r ≡ 0 → posted r ≡ [] };

    ghost long: { (r : Self) → (keyed r ≢ 0) → length (written r) ≡ WIDTH };

    /// What is written is read back, whatever bytes follow.
    ghost back: { (r : Self) (rest : List ℕ) → (keyed r ≢ 0) → reads (written r ++ rest) ≡ Ok r };

    /// What is read is written back.
    ghost forth: { (xs : List ℕ) (r : Self) → AllByRecursion Byte xs → reads xs ≡ Ok r → written r ≡ take WIDTH xs };

    /// What is read is never blank.
    ghost sure: { (xs : List ℕ) (r : Self) → reads xs ≡ Ok r → keyed r ≢ 0 };

    /// Fewer bytes than the width are a record cut off.
    ghost short: { (xs : List ℕ) → length xs < WIDTH → refusal_of Self.Fault.Refused.told (reads xs) ≡ Some (plain 4) };

    /// Every other fault is the record's own; a field out of range comes with its place.
    ghost layer: { (xs : List ℕ) (f : Self.Fault) → WIDTH ≤ length xs → reads xs ≡ Err f → OfRecord WIDTH (Self.Fault.Refused.told f) };

    /// Bytes beyond the width are ignored.
    ghost ahead: { (xs : List ℕ) → reads (take WIDTH xs) ≡ reads xs };
}

/// One check: its fault, where it does not hold.
pub fn demand<F: Drop>(holds: bool, fault: F) -> Result<(), F>
    ensures { result ≡ answer_of (check holds fault) }
{
    if holds { Ok(()) } else { Err(fault) }
}

/// Whether this is the number of a member.
pub fn is_member(n: u8) -> bool
    ensures { result ≡ is_member n }
{
    in_range(1, 32, u32::from(n))
}

/// Whether this is the number of a quarter hour of a month.
pub fn is_period(n: u16) -> bool
    ensures { result ≡ is_period n }
{
    in_range(1, 2980, u32::from(n))
}

/// Whether `low <= n <= high`.
pub fn in_range(low: u32, high: u32, n: u32) -> bool
    ensures { result ≡ in_range low high n }
{
    (low..=high).contains(&n)
}

/// Whether `-limit <= z <= limit`.
pub fn is_within(limit: u32, z: i32) -> bool
    ensures { result ≡ within limit z }
{
    z.unsigned_abs() <= limit
}
