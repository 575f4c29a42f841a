//! The record of a coordinate.
ghost use Rattle.std.specs.Prelude.{◌≡◌, ℕ, ◌<◌, length, slice_index};

use fields::field::Field;

/// The present digits of a coordinate: its rows at the present index, before scrambling, row 1 first.
#[derive(Clone, Copy)]
pub(crate) struct Coordinate {
    // As many as a table can have rows, since no run asks for memory; those past the last row have no say.
    pub(crate) digits: [u8; 32],
}

impl Coordinate {
    /// What a change of one index digit does to the rows: a multiple of that digit's column is added to them.
    pub(crate) fn change<F: Field>(&mut self, field: &F, column: &[u8], by: u8)
        requires { length column.now ≡ 32 }
        ensures { (k : ℕ) → k < 32 → slice_index self.new.digits k ≡ (F.Field.means field.now).sum (slice_index self.old.digits k) ((F.Field.means field.now).product (slice_index column.now k) by) }
    {
        // The column is read by place; tried: what a `zip` over `iter_mut` leaves in the digits is not known to a proof.
        for (k, digit) in self.digits.iter_mut().enumerate() {
            *digit = field.add(*digit, field.mul(column[k], by));
        }
    }
}
