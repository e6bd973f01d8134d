//! Numbers in big-endian bytes: read from a part of a slice, written into a lent part of a page.
#![tactic(auto)]

ghost use Rattle.std.specs.Prelude.{◌≡◌, ◌+◌, length, nat_le};
ghost use Rattle.std.specs.Int.{w8, w16, w32, w64};
ghost use Rattle.wire.specs.Form.{Form, signed, unsigned};

/// A number in its bytes, the highest byte first, a signed one in two's complement.
/// The part that is read or lent has exactly the field's width.
pub trait Field: Copy {
    /// How the values stand in bytes.
    ghost form: { Form Self };

    fn get(part: &[u8]) -> Self
        requires { length part.now ≡ form.wide }
        ensures { result ≡ form.decoded part.now };

    fn put(self, part: &mut [u8])
        requires { length part.old ≡ form.wide }
        ensures { part.new ≡ form.encoded self };
}

// Each type has an impl by hand: num_traits' ToBytes and FromBytes promise no width and no round trip.
impl Field for u8 {
    ghost form = { unsigned w8 };

    fn get(part: &[u8]) -> u8 {
        part[0]
    }

    fn put(self, part: &mut [u8]) {
        part.copy_from_slice(&u8::to_be_bytes(self));
    }
}

impl Field for u16 {
    ghost form = { unsigned w16 };

    fn get(part: &[u8]) -> u16 {
        u16::from_be_bytes(part.try_into().unwrap())
    }

    fn put(self, part: &mut [u8]) {
        part.copy_from_slice(&u16::to_be_bytes(self));
    }
}

impl Field for u32 {
    ghost form = { unsigned w32 };

    fn get(part: &[u8]) -> u32 {
        u32::from_be_bytes(part.try_into().unwrap())
    }

    fn put(self, part: &mut [u8]) {
        part.copy_from_slice(&u32::to_be_bytes(self));
    }
}

impl Field for u64 {
    ghost form = { unsigned w64 };

    fn get(part: &[u8]) -> u64 {
        u64::from_be_bytes(part.try_into().unwrap())
    }

    fn put(self, part: &mut [u8]) {
        part.copy_from_slice(&u64::to_be_bytes(self));
    }
}

impl Field for i8 {
    ghost form = { signed w8 };

    fn get(part: &[u8]) -> i8 {
        u8::get(part).cast_signed()
    }

    fn put(self, part: &mut [u8]) {
        u8::put(self.cast_unsigned(), part);
    }
}

impl Field for i16 {
    ghost form = { signed w16 };

    fn get(part: &[u8]) -> i16 {
        u16::get(part).cast_signed()
    }

    fn put(self, part: &mut [u8]) {
        u16::put(self.cast_unsigned(), part);
    }
}

impl Field for i32 {
    ghost form = { signed w32 };

    fn get(part: &[u8]) -> i32 {
        u32::get(part).cast_signed()
    }

    fn put(self, part: &mut [u8]) {
        u32::put(self.cast_unsigned(), part);
    }
}

impl Field for i64 {
    ghost form = { signed w64 };

    fn get(part: &[u8]) -> i64 {
        u64::get(part).cast_signed()
    }

    fn put(self, part: &mut [u8]) {
        u64::put(self.cast_unsigned(), part);
    }
}

/// Whether this many bytes can be written into a page from a place on.
pub fn has_room(page: &[u8], at: usize, width: usize) -> bool
    ensures { result ≡ nat_le (at + width) (length page.now) }
{
    at <= page.len() && width <= page.len() - at
}
