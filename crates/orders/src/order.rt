//! The interface of point orders.
ghost use Rattle.std.specs.Prelude.{◌≡◌};
ghost use Rattle.base.specs.Orders.{OrderLaws, OrderModel};

/// An order: it sends positions to indexes, digit prefix by digit prefix.
///
/// Its meaning is one value, and every answer comes from it. The laws leave no room for an order that sends all positions
/// to one index: at m = 0 they say that two positions with equal indexes are equal.
pub trait Order {
    ghost means: { Self → OrderModel };

    // Each order answers these itself: defaults over one method for both would ask more of whoever writes an order.

    /// The number of different digits.
    fn q(&self) -> u8
        ensures { result ≡ (means self.now).q };

    /// The number of digits of a position.
    fn digits(&self) -> u8
        ensures { result ≡ (means self.now).digits };

    /// The index of a position. A position of q^digits or more comes back as it came.
    fn index(&self, position: u64) -> u64
        ensures { result ≡ (means self.now).index position };

    ghost keeps: { (x : Self) → OrderLaws (means x) };
}
