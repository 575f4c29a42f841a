//! Polynomials over two elements, and the test for primitive ones.
ghost use Rattle.std.specs.Prelude.{◌≡◌, ℕ, ◌+◌, ◌/◌, ◌^◌, ◌<◌, ◌≤◌, ◌↔◌, IsTrue};
ghost use Rattle.tables.specs.Primitive.{Leaves, Primitive};

/// A polynomial of degree 0 to 8: the coefficient of x^i is the bit at 2^i.
#[derive(Clone, Copy)]
pub(crate) struct Polynomial {
    pub(crate) degree: u8,
    pub(crate) bits: u16,
    pub ghost low: { degree ≤ 8 },
    pub ghost top: { bits / 2 ^ degree ≡ 1 },
}

impl Polynomial {
    // The remainder of x^(e + 1), from that of x^e.
    fn times_x(&self, remainder: u16) -> u16
        requires { remainder < 2 ^ self.now.degree }
        ensures small { result < 2 ^ self.now.degree }
        ensures next { (e : ℕ) → Leaves self.now.degree self.now.bits e remainder → Leaves self.now.degree self.now.bits (e + 1) result }
    {
        let doubled = remainder << 1;
        if doubled >> self.degree == 0 {
            doubled
        } else {
            doubled ^ self.bits
        }
    }

    // Whether the polynomial is primitive: x comes back to 1 after 2^degree - 1 multiplications and not before.
    pub(crate) fn is_primitive(&self) -> bool
        requires { 1 ≤ self.now.degree }
        ensures { IsTrue result ↔ Primitive self.now.degree self.now.bits }
    {
        let order = (1u16 << self.degree) - 1;
        let mut power = 1;
        // A loop, since each power is the one before it times x, and the first that is 1 ends it.
        for _e in 1..order {
            power = self.times_x(power);
            if power == 1 {
                return false;
            }
        }
        self.times_x(power) == 1
    }
}
