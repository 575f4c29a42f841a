//! One record of a direction list, its parts, and the test of its layout.
ghost use Rattle.std.specs.Prelude.{◌≡◌, ℕ, ◌*◌, ◌<◌, ◌↔◌, length, slice_index, IsTrue, MatchOption};
ghost use Rattle.base.specs.Faults.{kind_number, layer_number, refusal, stated};
ghost use Rattle.tables.specs.Record.{HeadOf, Layout, pair};
ghost use Rattle.tables.specs.Given.{GivenBy};
ghost use Rattle.tables.specs.Parts.{TakenApart};

use crate::polynomial::Polynomial;
use base::faults::{Fault, Kind, Layer, NO_COORDINATE};

/// The bytes in a record.
pub const RECORD_BYTES: usize = 20;

/// A record: a part of the caller's list, the coordinate that it describes, and the place of its first byte.
#[derive(Clone, Copy)]
pub struct Record<'a> {
    pub bytes: &'a [u8],
    pub coordinate: u8,
    pub place: usize,
}

/// The parts of a record, in the order of its bytes.
#[derive(Clone, Copy)]
pub struct Parts<'a> {
    pub degree: u8,
    pub zero: u8,
    pub polynomial: u16,
    pub numbers: &'a [u8],
}

/// What a record that keeps the layout gives: its polynomial, and the numbers m_1 to m_8.
#[derive(Clone, Copy)]
pub(crate) struct Given {
    pub(crate) polynomial: Polynomial,
    pub(crate) numbers: [u16; 8],
}

impl<'a> Record<'a> {
    /// The parts of the record's bytes; none where there are fewer than four bytes.
    pub fn parts(&self) -> Option<Parts<'a>>
        ensures { MatchOption result (length self.now.bytes.now < 4) (TakenApart self.now.bytes.now) }
    {
        let [degree, zero, low, high, numbers @ ..] = self.bytes else {
            return None;
        };
        Some(Parts {
            degree: *degree,
            zero: *zero,
            polynomial: u16::from_le_bytes([*low, *high]),
            numbers,
        })
    }

    // A fault of this record.
    pub(crate) fn fault(&self, kind: Kind, layer: Layer) -> Fault
        ensures { stated result ≡ refusal (kind_number kind) (layer_number layer) self.now.coordinate self.now.place }
    {
        Fault {
            kind,
            layer,
            coordinate: (self.coordinate != NO_COORDINATE).then_some(self.coordinate),
            place: self.place,
        }
    }

    // What the record gives; none where it does not keep the layout.
    pub(crate) fn given(&self) -> Option<Given>
        ensures { MatchOption result (Layout self.now.bytes.now → ⊥) (GivenBy self.now.bytes.now) }
    {
        let parts = self.parts()?;
        let numbers = numbers_in(parts.numbers.try_into().ok()?);
        if !head_is_sound(parts.degree, parts.zero, parts.polynomial) {
            return None;
        }
        if !are_zero(&numbers[parts.degree as usize..]) {
            return None;
        }
        Some(Given {
            polynomial: Polynomial {
                degree: parts.degree,
                bits: parts.polynomial,
            },
            numbers,
        })
    }

    /// Whether the record keeps the layout.
    pub fn keeps_layout(&self) -> bool
        ensures { IsTrue result ↔ Layout self.now.bytes.now }
    {
        self.given().is_some()
    }
}

// The numbers in the bytes, low byte first.
fn numbers_in(bytes: &[u8; 16]) -> [u16; 8]
    ensures { (k : ℕ) → k < 8 → slice_index result k ≡ pair bytes.now (2 * k) }
{
    std::array::from_fn(|i| u16::from_le_bytes([bytes[2 * i], bytes[2 * i + 1]]))
}

// Whether degree, byte 1 and polynomial are those of a record.
fn head_is_sound(degree: u8, zero: u8, polynomial: u16) -> bool
    ensures { IsTrue result ↔ HeadOf degree zero polynomial }
{
    degree <= 8 && zero == 0 && polynomial >> degree == 1 && polynomial % 2 == 1
}

// Whether each number is 0.
fn are_zero(numbers: &[u16]) -> bool
    ensures { IsTrue result ↔ ((k : ℕ) → k < length numbers.now → slice_index numbers.now k ≡ 0) }
{
    numbers.iter().all(|m| *m == 0)
}
