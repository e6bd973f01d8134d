//! The statement that a book issues, as bytes in a page.
#![tactic(auto)]

ghost use Rattle.std.specs.Prelude.{◌≡◌, length};
ghost use Rattle.wire.specs.Bytes.{page_after};
ghost use Rattle.statement.specs.Page.{amounts, bytes_of, writes};

use refusal::PageFault;
use wire::Field;

/// How many bytes a statement has.
const WIDTH: usize = 263;

/// The number of a book, the edition of the statement, and the last charges of the members 1 to 32.
#[derive(Clone, Copy)]
pub struct Statement {
    pub number: u32,
    pub edition: u16,
    pub charges: [i64; 32],
}

impl Statement {
    // Page and place stay two parameters: the page is the caller's, and any place is answered.
    /// Writes the statement into a page from a place on.
    pub fn write(&self, page: &mut [u8], at: usize) -> Result<(), PageFault>
        ensures answer { result ≡ writes at page.old }
        ensures after { page.new ≡ page_after result at (bytes_of self.now) page.old }
    {
        if !wire::has_room(page, at, WIDTH) {
            return Err(PageFault::TooShort);
        }
        self.put(&mut page[at..at + WIDTH]);
        Ok(())
    }

    fn put(&self, part: &mut [u8])
        requires { length part.old ≡ 263 }
        ensures { part.new ≡ bytes_of self.now }
    {
        part[0] = 0x30;
        self.number.put(&mut part[1..5]);
        self.edition.put(&mut part[5..7]);
        put_charges(&self.charges, &mut part[7..263]);
    }
}

/// Writes amounts of 8 bytes each, one after another.
fn put_charges(charges: &[i64; 32], part: &mut [u8])
    requires { length part.old ≡ 256 }
    ensures { part.new ≡ amounts charges.now }
{
    // An array's `map` moves each amount through an Option: it took twelve times as long.
    for (at, charge) in charges.iter().enumerate() {
        charge.put(&mut part[8 * at..8 * at + 8]);
    }
}
