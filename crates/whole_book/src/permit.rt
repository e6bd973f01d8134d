//! The reopening permit.
use crate::register::BookFault;

/// Comes from reopening a book alone, and is given back by reissuing or abandoning. It is neither
/// copied nor let go.
pub struct Permit {
    pub(crate) number: u32,
    pub(crate) edition: u16,
}

impl Permit {
    /// Takes the permit apart.
    pub(crate) fn spend(self) {
        let Permit {
            number: _,
            edition: _,
        } = self;
    }
}

/// A refusal, with the permit that was handed in.
pub struct Unspent {
    pub fault: BookFault,
    pub permit: Permit,
}
