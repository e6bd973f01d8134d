//! Refusals as they are told: a number, the value that goes with it, and the layer that refuses.
#![tactic(auto)]

ghost use Rattle.std.specs.Prelude.{◌≡◌, Some};
ghost use Rattle.refusal.specs.declared.Refusal.{Refusal};
ghost use Rattle.refusal.specs.Told.{detailed, layer_of, name_of, plain, text_of, told_of_member, told_of_page};

use std::fmt;

/// A refusal as it is told. The detail of a field out of range (5) is the field's place, that of a
/// key that stands already (23) the number of the record that stands.
#[derive(Clone, Copy, Debug, PartialEq, Eq)]
pub struct Refusal {
    // A number, as the format has it: an enum of all would say each fault of each layer a second time.
    pub number: u8,
    pub detail: Option<usize>,
}

impl Refusal {
    /// A refusal that is its number alone.
    pub fn plain(number: u8) -> Refusal
        ensures { result ≡ plain number }
    {
        Refusal {
            number,
            detail: None,
        }
    }

    /// A refusal with the value that goes with it.
    pub fn with(number: u8, detail: usize) -> Refusal
        ensures { result ≡ detailed number detail }
    {
        Refusal {
            number,
            detail: Some(detail),
        }
    }
}

/// The number, and the detail in parentheses where there is one.
impl fmt::Display for Refusal {
    ghost output = { λ refusal. Some (text_of refusal) };

    fn fmt<W: fmt::Write>(&self, f: &mut fmt::Formatter<W>) -> fmt::Result {
        let number = self.number;
        match self.detail {
            None => write!(f, "{number}"),
            Some(detail) => write!(f, "{number} ({detail})"),
        }
    }
}

/// A layer's own fault, with the refusal that it is told as.
pub trait Refused: Copy {
    ghost told: { Self → Refusal };

    fn refusal(&self) -> Refusal
        ensures { result ≡ told self.now };
}

/// A fault turns into the refusal that it is told as, so that `?` passes it up.
impl<F: Refused> From<F> for Refusal {
    ghost from_gives = { λ fault refusal. refusal ≡ F.told fault };

    fn from(fault: F) -> Refusal {
        fault.refusal()
    }
}

/// Who refuses: the file's form, a record's fields, or the book.
#[derive(Clone, Copy, Debug, PartialEq, Eq)]
pub enum Layer {
    File,
    Record,
    Book,
}

/// The layer that a refusal of this number comes from.
impl From<u8> for Layer {
    ghost from_gives = { λ number layer. layer ≡ layer_of number };

    fn from(number: u8) -> Layer {
        match number {
            0..=4 => Layer::File,
            5..=10 => Layer::Record,
            _ => Layer::Book,
        }
    }
}

impl Layer {
    /// The layer's name in a report.
    pub fn name(self) -> &'static str
        ensures { result.now ≡ name_of self }
    {
        match self {
            Layer::File => "file",
            Layer::Record => "record",
            Layer::Book => "book",
        }
    }
}

/// Why a question about a member is not answered.
#[derive(Clone, Copy, Debug, PartialEq, Eq)]
pub enum MemberFault {
    Unknown,
}

impl Refused for MemberFault {
    ghost told = { told_of_member };

    fn refusal(&self) -> Refusal {
        match self {
            MemberFault::Unknown => Refusal::plain(12),
        }
    }
}

/// Why bytes are not written into a page.
#[derive(Clone, Copy, Debug, PartialEq, Eq)]
pub enum PageFault {
    TooShort,
}

impl Refused for PageFault {
    ghost told = { told_of_page };

    fn refusal(&self) -> Refusal {
        match self {
            PageFault::TooShort => Refusal::plain(13),
        }
    }
}
