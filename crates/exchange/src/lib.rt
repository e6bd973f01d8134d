//! Exchanges of balancing energy over a border: a kind of record of 20 bytes.
#![tactic(auto)]

ghost use Rattle.std.specs.Prelude.{◌≡◌, ◌<◌, ◌≤◌, true, length, ◌-ℤ◌};
ghost use Rattle.amounts.specs.Floor.{Under};
ghost use Rattle.record.specs.Reading.{answer_of, check, unless};
ghost use Rattle.exchange.specs.declared.ExchangeFault.TheVariants.{OutOfRange};
ghost use Rattle.exchange.specs.Meaning.{fault_of, key_of, no_exchange, own_key, own_postings, passing, place_of, postings, share_of, told_of, worth};
ghost use Rattle.exchange.specs.Bytes.{bytes_of, fields_of, read_of};
ghost use Rattle.exchange.specs.Laws as laws;
ghost use Rattle.exchange.specs.BytesLemmas as Bytes;
ghost use Rattle.std.proofs.Common.{rules};

use amounts::{nearest_cent, round_down};
use record::{
    Posting, Postings, Record, WriteFault, demand, in_range, is_member, is_period, is_within,
};
use refusal::{Refusal, Refused};
use wire::{Field, has_room};

/// The most kWh of one exchange.
const MOST_VOLUME: u32 = 1_000_000;

/// The highest price on either side of zero, in cents per MWh.
const MOST_PRICE: u32 = 9_999_999;

/// How many postings an exchange that passes has.
const POSTINGS: usize = 4;

/// Energy that one member exports and another imports over a border in one quarter hour.
#[derive(Clone, Copy, Default)]
pub struct Exchange {
    /// 1 for replacement reserves, 2 for manual and 3 for automatic frequency restoration reserves.
    // A number: the fields hold whatever the bytes hold until the checks of reading pass.
    product: u8,
    /// The quarter hour of the month.
    period: u16,
    border: u8,
    importer: u8,
    exporter: u8,
    /// In kWh.
    volume: u32,
    /// The price of the importing side, in cents per MWh.
    importing: i32,
    /// The price of the exporting side, in cents per MWh.
    exporting: i32,
    /// The importer's part of the income, in percent.
    percentage: u8,
    reserved: u8,
}

/// The fields whose range is limited.
#[derive(Clone, Copy)]
pub enum ExchangeField {
    Product,
    Period,
    Importer,
    Exporter,
    Volume,
    ImportingPrice,
    ExportingPrice,
    Percentage,
    Reserved,
}

/// Why bytes are not read as an exchange, in the order of the checks.
#[derive(Clone, Copy)]
pub enum ExchangeFault {
    /// There are fewer bytes than an exchange has.
    CutOff,
    OutOfRange(ExchangeField),
    /// The importer is the exporter.
    SameMember,
    /// The importing price is below the exporting price.
    PriceOrder,
}

impl ExchangeField {
    /// Where the field stands, in bytes from the record's start.
    fn place(&self) -> usize
        ensures { result ≡ place_of self.now }
    {
        match self {
            ExchangeField::Product => 0,
            ExchangeField::Period => 1,
            ExchangeField::Importer => 4,
            ExchangeField::Exporter => 5,
            ExchangeField::Volume => 6,
            ExchangeField::ImportingPrice => 10,
            ExchangeField::ExportingPrice => 14,
            ExchangeField::Percentage => 18,
            ExchangeField::Reserved => 19,
        }
    }
}

impl Refused for ExchangeFault {
    ghost told = { told_of };

    fn refusal(&self) -> Refusal {
        match self {
            ExchangeFault::CutOff => Refusal::plain(4),
            ExchangeFault::OutOfRange(field) => Refusal::with(5, field.place()),
            ExchangeFault::SameMember => Refusal::plain(6),
            ExchangeFault::PriceOrder => Refusal::plain(7),
        }
    }
}

/// One check of a field's range.
fn demand_range(holds: bool, field: ExchangeField) -> Result<(), ExchangeFault>
    ensures { result ≡ answer_of (check holds (OutOfRange field)) }
{
    demand(holds, ExchangeFault::OutOfRange(field))
}

/// The nearest cents of a volume at a price.
fn worth_of(volume: u32, price: i32) -> i64
    requires volumes { volume ≤ 1000000 }
    requires prices { Under 9999999 price }
    ensures { result ≡ worth volume price }
{
    nearest_cent(i64::from(volume) * i64::from(price))
}

/// What an exchange is worth at both prices, in cents, and how the income between them is shared.
#[derive(Clone, Copy)]
struct Worths {
    importing: i64,
    exporting: i64,
    percentage: u8,
    ghost importing_small: { Under 9999999000 importing },
    ghost exporting_small: { Under 9999999000 exporting },
    ghost part: { percentage ≤ 100 },
}

impl Worths {
    /// The importer's share of the income, rounded down.
    fn share(&self) -> i64
        ensures { result ≡ share_of (self.now.importing -ℤ self.now.exporting) self.now.percentage }
    {
        let income = self.importing - self.exporting;
        round_down(income * i64::from(self.percentage), 100)
    }
}

impl Exchange {
    /// The exchange, where it passes the checks of reading, and else the fault of the first that fails.
    fn checked(self) -> Result<Exchange, ExchangeFault>
        ensures { result ≡ unless (fault_of self) self }
    {
        demand_range(
            in_range(1, 3, u32::from(self.product)),
            ExchangeField::Product,
        )?;
        demand_range(is_period(self.period), ExchangeField::Period)?;
        demand_range(is_member(self.importer), ExchangeField::Importer)?;
        demand_range(is_member(self.exporter), ExchangeField::Exporter)?;
        demand_range(in_range(1, MOST_VOLUME, self.volume), ExchangeField::Volume)?;
        demand_range(
            is_within(MOST_PRICE, self.importing),
            ExchangeField::ImportingPrice,
        )?;
        demand_range(
            is_within(MOST_PRICE, self.exporting),
            ExchangeField::ExportingPrice,
        )?;
        demand_range(self.percentage <= 100, ExchangeField::Percentage)?;
        demand_range(self.reserved == 0, ExchangeField::Reserved)?;
        demand(self.importer != self.exporter, ExchangeFault::SameMember)?;
        demand(self.exporting <= self.importing, ExchangeFault::PriceOrder)?;
        Ok(self)
    }

    /// Whether the fields pass every check of reading.
    fn passes(&self) -> bool
        ensures { result ≡ passing self.now }
    {
        self.checked().is_ok()
    }

    /// The fields as they stand in the bytes.
    fn fields(bytes: &[u8; Self::WIDTH]) -> Exchange
        ensures { result ≡ fields_of bytes.now }
    {
        Exchange {
            product: bytes[0],
            period: u16::get(&bytes[1..3]),
            border: bytes[3],
            importer: bytes[4],
            exporter: bytes[5],
            volume: u32::get(&bytes[6..10]),
            importing: i32::get(&bytes[10..14]),
            exporting: i32::get(&bytes[14..18]),
            percentage: bytes[18],
            reserved: bytes[19],
        }
    }

    /// Writes the fields into their twenty bytes.
    fn put(&self, part: &mut [u8])
        requires { length part.old ≡ 20 }
        ensures { part.new ≡ bytes_of self.now }
    {
        part[0] = self.product;
        self.period.put(&mut part[1..3]);
        part[3] = self.border;
        part[4] = self.importer;
        part[5] = self.exporter;
        self.volume.put(&mut part[6..10]);
        self.importing.put(&mut part[10..14]);
        self.exporting.put(&mut part[14..18]);
        part[18] = self.percentage;
        part[19] = self.reserved;
    }

    /// The key of the fields, whether they pass or not.
    fn own_key(&self) -> u64
        ensures value { result ≡ own_key self.now }
        ensures fits { passing self.now ≡ true → result < 4294967296 }
    {
        ((u64::from(self.product) * 4096 + u64::from(self.period)) * 256 + u64::from(self.border))
            * 64
            + u64::from(self.importer)
    }

    /// What the volume is worth to either side.
    fn worths(&self) -> Worths
        requires { passing self.now ≡ true }
        ensures importing { result.importing ≡ worth self.now.volume self.now.importing }
        ensures exporting { result.exporting ≡ worth self.now.volume self.now.exporting }
        ensures percentage { result.percentage ≡ self.now.percentage }
    {
        Worths {
            importing: worth_of(self.volume, self.importing),
            exporting: worth_of(self.volume, self.exporting),
            percentage: self.percentage,
        }
    }

    /// The importer pays and the exporter is paid what the volume is worth to each; of the income
    /// between them the importer gets its share and the exporter the rest.
    fn own_postings(&self) -> [Posting; POSTINGS]
        requires { passing self.now ≡ true }
        ensures { result ≡ own_postings self.now }
    {
        let worths = self.worths();
        let share = worths.share();
        [
            Posting::to(self.importer, -worths.importing),
            Posting::to(self.exporter, worths.exporting),
            Posting::to(self.importer, share),
            Posting::to(self.exporter, worths.importing - worths.exporting - share),
        ]
    }
}

impl Record for Exchange {
    const CODE: u8 = 1;

    const WIDTH: usize = 20;

    type Fault = ExchangeFault;

    ghost CODE = { 1 };

    ghost WIDTH = { 20 };

    ghost empty = { no_exchange };

    ghost keyed = { key_of };

    ghost posted = { postings };

    ghost written = { bytes_of };

    ghost reads = { read_of };

    ghost broad = { Prim.search rules };

    ghost zero = { laws.zero_sum };

    ghost few = { laws.few };

    ghost fair = { laws.fair };

    ghost unkeyed = { Prim.search rules };

    ghost alone = { laws.alone };

    ghost long = { Prim.search rules };

    ghost back = { laws.back };

    ghost forth = { laws.forth };

    ghost sure = { laws.sure };

    ghost short = { Bytes.cut_off };

    ghost layer = { Bytes.of_record };

    ghost ahead = { Bytes.ahead };

    fn blank() -> Exchange {
        Exchange::default()
    }

    fn read(bytes: &[u8]) -> Result<Exchange, ExchangeFault> {
        let bytes = bytes.first_chunk().ok_or(ExchangeFault::CutOff)?;
        Exchange::fields(bytes).checked()
    }

    fn key(&self) -> u32 {
        if self.passes() {
            self.own_key() as u32
        } else {
            0
        }
    }

    fn count(&self) -> usize {
        if self.passes() { POSTINGS } else { 0 }
    }

    fn posting(&self, at: usize) -> Posting {
        if at < POSTINGS && self.passes() {
            self.own_postings()[at]
        } else {
            Posting::default()
        }
    }

    fn write(&self, page: &mut [u8], at: usize) -> Result<(), WriteFault> {
        demand(self.passes(), WriteFault::Blank)?;
        demand(has_room(page, at, Self::WIDTH), WriteFault::PageTooShort)?;
        self.put(&mut page[at..at + Self::WIDTH]);
        Ok(())
    }

    fn has_key(&self, key: u32) -> bool {
        if key == 0 {
            return !self.passes();
        }
        self.own_key() == u64::from(key) && self.passes()
    }

    fn fill(&self, list: &mut Postings) {
        list.clear();
        if self.passes() {
            let _fits = list.try_extend_from_slice(&self.own_postings());
        }
    }
}
