//! Slots that hold records, and the questions about those that are booked.
#![tactic(auto)]

ghost use Rattle.std.specs.Prelude.{◌≡◌, ◌+◌, ◌<◌, ◌≤◌, IfSome, length, min, option_map, position, take};
ghost use Rattle.slots.specs.Entries.{first_where, gives, hits, lookup, offers, standing_at};

use record::{Postings, Record};

/// How many slots of a book are booked at most.
pub const MOST_SLOTS: usize = 4096;

#[derive(Clone, Copy, PartialEq, Eq)]
pub enum SlotState {
    Standing,
    Withdrawn,
}

/// One record and its state.
#[derive(Clone, Copy)]
pub struct Slot<R> {
    pub item: R,
    pub state: SlotState,
}

/// The slots that are booked, of which there are at most 4,096.
#[derive(Drop)]
pub struct Entries<'a, R: Record> {
    slots: &'a [Slot<R>],
    ghost few: { length slots.now ≤ 4096 },
}

impl<'a, R: Record> Entries<'a, R> {
    /// The first `used` of these slots, of the first 4,096 at most.
    pub fn of(slots: &'a [Slot<R>], used: usize) -> Entries<'a, R>
        ensures { result.slots.now ≡ take (min used 4096) slots.now }
    {
        let n = used.min(MOST_SLOTS).min(slots.len());
        Entries { slots: &slots[..n] }
    }

    /// The number of the standing record with a key, counted from 1.
    pub fn number_of(&self, key: u32) -> Option<u16>
        ensures { result ≡ lookup R.keyed key self.now.slots.now }
    {
        numbered(place_of(self.slots, key))
    }

    /// The record of a number, counted from 1, if it stands.
    pub fn record_of(&self, number: u16) -> Option<R>
        ensures stood { result ≡ standing_at number self.now.slots.now }
        ensures within { IfSome result (λ _. (1 ≤ number) × (number ≤ length self.now.slots.now)) }
    {
        let at = number.checked_sub(1)?;
        let slot = self.slots.get(usize::from(at))?;
        (slot.state == SlotState::Standing).then_some(slot.item)
    }

    /// The number of the first standing record that gives a member at least these cents in one
    /// posting.
    pub fn number_giving(&self, member: u8, cents: i64) -> Option<u16>
        ensures { result ≡ first_where (offers R.posted member cents) self.now.slots.now }
    {
        numbered(place_giving(self.slots, member, cents))
    }
}

/// The number of a place, counted from 1.
fn numbered(place: Option<usize>) -> Option<u16>
    requires { IfSome place (λ i. i < 4096) }
    ensures { result ≡ option_map (λ i. i + 1) place }
{
    place.map(|i| (i + 1) as u16)
}

// These two differ in their test. One function over the test was tried: its callers' answers stayed open.
/// The first place of a standing record with a key.
fn place_of<R: Record>(slots: &[Slot<R>], key: u32) -> Option<usize>
    ensures { result ≡ position (hits R.keyed key) slots.now }
{
    slots.iter().position(|slot| slot.state == SlotState::Standing && slot.item.has_key(key))
}

/// The first place of a standing record that gives a member at least these cents in one posting.
fn place_giving<R: Record>(slots: &[Slot<R>], member: u8, cents: i64) -> Option<usize>
    ensures { result ≡ position (offers R.posted member cents) slots.now }
{
    slots.iter().position(|slot| slot.state == SlotState::Standing
        && gives(&slot.item, member, cents))
}

fn gives<R: Record>(item: &R, member: u8, cents: i64) -> bool
    ensures { result ≡ gives member cents (R.posted item.now) }
{
    let mut list = Postings::new();
    item.fill(&mut list);
    list.as_slice()
        .iter()
        .any(|p| p.member == member && cents <= p.cents)
}
