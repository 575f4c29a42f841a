//! The reader of direction lists.
ghost use Rattle.std.specs.Prelude.{◌≡◌};
ghost use Rattle.base.specs.Tests.{Gives};
ghost use Rattle.tables.specs.Reader.{list_tests, Next};

use crate::record::{RECORD_BYTES, Record};
use base::faults::{Fault, Kind, Layer};

/// The bytes of a list of eight records.
pub const LIST_BYTES: usize = 160;

/// Hands out the records of a list, one after the other.
#[derive(Drop)]
pub struct Reader<'a> {
    list: &'a [u8],
    // A place and not a rest of the list, since a fault tells the place.
    place: usize,
}

impl<'a> Reader<'a> {
    /// A reader at the beginning of a list.
    pub fn new(list: &'a [u8]) -> Result<Reader<'a>, Fault>
        ensures { Gives (list_tests list.now) result (λ x. (x.list.now ≡ list.now) × (x.place ≡ 0)) }
    {
        if list.is_empty() || list.len() % RECORD_BYTES != 0 {
            return Err(Fault::of(Kind::WrongLength, Layer::Reader));
        }
        if list.len() > LIST_BYTES {
            return Err(Fault::of(Kind::OutOfRange, Layer::Reader));
        }
        Ok(Reader { list, place: 0 })
    }

    /// The next record with its place; none at the end.
    /// A record that does not keep the layout is refused, and stays the next.
    pub fn next(&mut self) -> Result<Option<Record<'a>>, Fault>
        ensures same { self.new.list.now ≡ self.old.list.now }
        ensures answer { Next self.old.list.now self.old.place result self.new.place }
    {
        let place = self.place;
        if place >= LIST_BYTES || self.list.len() < place + RECORD_BYTES {
            return Ok(None);
        }
        let record = Record {
            bytes: &self.list[place..place + RECORD_BYTES],
            coordinate: (place / RECORD_BYTES) as u8,
            place,
        };
        if !record.keeps_layout() {
            return Err(record.fault(Kind::BadLayout, Layer::Reader));
        }
        self.place = place + RECORD_BYTES;
        Ok(Some(record))
    }
}
