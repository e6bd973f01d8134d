//! The lines of a settlement report, as bytes in a page.
#![tactic(auto)]

ghost use Rattle.std.specs.Prelude.{◌≡◌, ◌+◌, ◌<◌, ◌≤◌, [], ◌∷◌, ◌++◌, length, take};
ghost use Rattle.arrayvec.specs.ArrayVec.{array_vec_len};
ghost use Rattle.wire.specs.Bytes.{page_after};
ghost use Rattle.report.specs.Lines.{Added, Tells, all_added, members};
ghost use Rattle.report.specs.Line.{account_line, refusal_line, shown, written};

use arrayvec::ArrayVec;
use itoa::{Buffer, Integer};
use ledger::Account;
use refusal::{Layer, MemberFault, PageFault, Refusal};

/// Room for any line: a letter, three numbers of 64 bits after a space each, and a line feed.
const ROOM: usize = 65;

// Page and place stay two parameters in these two: the page is the caller's, and any place is answered.
/// Writes the line of a refused command from a place of the page on: `R`, the place of the command
/// byte, the layer and the number of the refusal. Answers the place after the line.
pub fn put_refusal(page: &mut [u8], at: usize, place: usize, number: u8) -> Result<usize, PageFault>
    ensures answer { result ≡ written at (refusal_line place number) page.old }
    ensures after { page.new ≡ page_after result at (refusal_line place number) page.old }
{
    let mut line = Line::new(b'R');
    line.number(place);
    line.field(Layer::from(number).name().as_bytes());
    line.number(number);
    line.put(page, at)
}

/// Writes the line of a member's account from a place of the page on: `B`, the member, its balance
/// and what it was charged. Answers the place after the line.
pub fn put_account(
    page: &mut [u8],
    at: usize,
    member: u8,
    balance: i64,
    charged: i64,
) -> Result<usize, PageFault>
    ensures answer { result ≡ written at (account_line member balance charged) page.old }
    ensures after { page.new ≡ page_after result at (account_line member balance charged) page.old }
{
    let mut line = Line::new(b'B');
    line.number(member);
    line.number(balance);
    line.number(charged);
    line.put(page, at)
}

/// A report under construction: lines from the start of a page on that its opener lends.
#[derive(Drop)]
pub struct Report<'a> {
    page: &'a mut [u8],
    end: usize,
    ghost within: { end ≤ length page.now },
}

impl<'a> Report<'a> {
    /// A report of no lines.
    pub fn new(page: &'a mut [u8]) -> Report<'a>
        ensures lent { result.page.ghost_name ≡ page.entry.ghost_name }
        ensures same { result.page.now ≡ page.old }
        ensures empty { result.end ≡ 0 }
    {
        Report { page, end: 0 }
    }

    /// Adds the line of a refused command, with the place of the command byte.
    pub fn refuse(&mut self, place: usize, refusal: Refusal) -> Result<(), PageFault>
        ensures { Added (refusal_line place refusal.number ∷ []) self.old.page self.old.end self.new.page self.new.end result }
    {
        self.end = put_refusal(self.page, self.end, place, refusal.number)?;
        Ok(())
    }

    /// Adds the line of a member's account, unless its balance and what it was charged are 0.
    pub fn account(&mut self, member: u8, account: &Account) -> Result<(), PageFault>
        ensures { Added (shown member account.now ∷ []) self.old.page self.old.end self.new.page self.new.end result }
    {
        let (balance, charged) = (account.balance, account.charged);
        if balance != 0 || charged != 0 {
            self.end = put_account(self.page, self.end, member, balance, charged)?;
        }
        Ok(())
    }

    /// Adds the lines of the members 1 to 32 by what is told of their accounts, up to the first line
    /// that does not fit.
    pub fn accounts<F: Fn(u8) -> Result<Account, MemberFault>>(
        &mut self,
        account_of: F,
    ) -> Result<(), PageFault>
        requires { F.IsAlwaysCallable account_of }
        ensures came { (told : _) → Tells (F.post account_of) told → all_added (members told 1 32) self.old.page.now self.old.end ≡ (self.new.page.now, (self.new.end, result)) }
        ensures lent { self.new.page.ghost_name ≡ self.old.page.ghost_name }
    {
        // By number, since that is what a member is.
        for member in 1..33u8 {
            if let Ok(account) = account_of(member) {
                self.account(member, &account)?;
            }
        }
        Ok(())
    }

    /// Where the lines end, counted from the page's start.
    pub fn end(&self) -> usize
        ensures value { result ≡ self.now.end }
        ensures within { result ≤ length self.now.page.now }
    {
        self.end
    }

    /// The lines.
    pub fn lines(&self) -> &[u8]
        ensures { result.now ≡ take self.now.end self.now.page.now }
    {
        &self.page[..self.end]
    }
}

/// A line under construction, its line feed still to come.
#[derive(Drop)]
struct Line {
    bytes: ArrayVec<u8, ROOM>,
    ghost unended: { array_vec_len bytes < 65 },
}

impl Line {
    fn new(letter: u8) -> Line
        ensures { result.bytes.items ≡ letter ∷ [] }
    {
        let mut bytes = ArrayVec::new();
        bytes.push(letter);
        Line { bytes }
    }

    /// Adds a space and bytes as they are.
    fn field(&mut self, text: &[u8])
        requires { array_vec_len self.old.bytes + 1 + length text.now < ROOM }
        ensures { self.new.bytes.items ≡ self.old.bytes.items ++ 32 ∷ text.now }
    {
        self.bytes.push(b' ');
        let _fits = self.bytes.try_extend_from_slice(text);
    }

    /// Adds a space and a number.
    fn number<I: Integer>(&mut self, n: I)
        requires { array_vec_len self.old.bytes + 1 + I.MAX_STR_LEN < ROOM }
        ensures after { self.new.bytes.items ≡ self.old.bytes.items ++ 32 ∷ I.text n }
        ensures short { length (I.text n) ≤ I.MAX_STR_LEN }
    {
        self.field(Buffer::new().format(n).as_bytes());
    }

    /// Writes the line and answers the place after it. A page that is too short for it stays as it was.
    fn put(self, page: &mut [u8], at: usize) -> Result<usize, PageFault>
        ensures answer { result ≡ written at (self.bytes.items ++ 10 ∷ []) page.old }
        ensures after { page.new ≡ page_after result at (self.bytes.items ++ 10 ∷ []) page.old }
    {
        let Line { mut bytes } = self;
        bytes.push(b'\n');
        let line = bytes.as_slice();
        if !wire::has_room(page, at, line.len()) {
            return Err(PageFault::TooShort);
        }
        let end = at + line.len();
        page[at..end].copy_from_slice(line);
        Ok(end)
    }
}

#[cfg(test)]
mod tests {
    use super::Report;
    use ledger::Account;
    use refusal::{MemberFault, Refusal};
    use std::process::Abort;
    use std::test::Fail;

    // Something is to be shown of the members 2 and 32 alone.
    fn account_of(member: u8) -> Result<Account, MemberFault> {
        let (balance, charged) = match member {
            2 => (62732, 62732),
            3 => return Err(MemberFault::Unknown),
            32 => (-1001, 0),
            _ => (0, 0),
        };
        Ok(Account {
            balance,
            charged,
            last: 7,
        })
    }

    #[test]
    fn lines_follow_one_another(rt: HostRuntime) {
        let mut page = [7; 60];
        let mut report = Report::new(&mut page);
        assert!(rt; report.refuse(26, Refusal::plain(23)).is_ok());
        assert!(rt; report.refuse(68, Refusal::with(5, 4)).is_ok());
        assert!(rt; report.accounts(account_of).is_ok());
        assert!(rt;
            report.lines()
                == b"R 26 book 23\nR 68 record 5\nB 2 62732 62732\nB 32 -1001 0\n".as_slice()
        );
        let end = report.end();
        for byte in &page[end..] {
            assert_eq!(rt; *byte, 7);
        }
    }

    #[test]
    fn lines_that_do_not_fit(rt: HostRuntime) {
        let mut page = [7; 18];
        let mut report = Report::new(&mut page);
        assert!(rt; report.accounts(account_of).is_err());
        assert!(rt; report.lines() == b"B 2 62732 62732\n".as_slice());
        assert!(rt; report.refuse(0, Refusal::plain(1)).is_err());
        assert!(rt; report.lines() == b"B 2 62732 62732\n".as_slice());
    }
}
