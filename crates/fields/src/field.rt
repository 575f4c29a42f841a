//! The interface of digit fields.
ghost use Rattle.std.specs.Prelude.{◌≡◌};
ghost use Rattle.base.specs.Fields.{FieldLaws, FieldModel};

/// A field of q elements, the digits below q.
///
/// Its meaning is one value, and every answer comes from it. With a digit of q or more a sum, a product and a negative
/// are 0, and an inverse is absent.
pub trait Field {
    ghost means: { Self → FieldModel };

    /// The number of elements.
    fn q(&self) -> u8
        ensures { result ≡ (means self.now).q };

    /// The sum of two digits.
    fn add(&self, a: u8, b: u8) -> u8
        ensures { result ≡ (means self.now).sum a b };

    /// The product of two digits.
    fn mul(&self, a: u8, b: u8) -> u8
        ensures { result ≡ (means self.now).product a b };

    /// The digit whose sum with a digit is 0.
    fn neg(&self, a: u8) -> u8
        ensures { result ≡ (means self.now).negative a };

    /// The digit whose product with a digit is 1; absent for 0.
    fn inverse(&self, a: u8) -> Option<u8>
        ensures { result ≡ (means self.now).inverse a };

    ghost keeps: { (x : Self) → FieldLaws (means x) };
}
