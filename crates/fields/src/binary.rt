//! Sum and negative in a field of characteristic 2 of Q elements, Q a power of 2.
ghost use Rattle.std.specs.Prelude.{◌≡◌, if◌then◌else◌, bit_xor, nat_lt};
ghost use Rattle.fields.specs.Guarded.{on_digits};

/// The exclusive-or of two digits, and 0 where one of them is no digit.
pub(crate) fn xor_digits<const Q: u8>(a: u8, b: u8) -> u8
    ensures { result ≡ on_digits Q bit_xor a b }
{
    if a < Q && b < Q { a ^ b } else { 0 }
}

/// A digit as it is, which is its own negative, and 0 for another number.
pub(crate) fn same_digit<const Q: u8>(a: u8) -> u8
    ensures { result ≡ if nat_lt a Q then a else 0 }
{
    if a < Q { a } else { 0 }
}
