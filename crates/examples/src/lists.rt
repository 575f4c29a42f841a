//! Direction lists that the program and the tests share.

/// A coordinate of degree 0, and the polynomial 11 with 1, 3, 7.
pub const GOOD: &[u8; 40] =
    b"\0\0\x01\0\0\0\0\0\0\0\0\0\0\0\0\0\0\0\0\0\x03\0\x0b\0\x01\0\x03\0\x07\0\0\0\0\0\0\0\0\0\0\0";

/// Polynomial 31 of degree 4 with 1, 3, 7, 1: irreducible, and x comes back to 1 after 5 multiplications.
pub const THIRTY_ONE: &[u8; 20] = b"\x04\0\x1f\0\x01\0\x03\0\x07\0\x01\0\0\0\0\0\0\0\0\0";
