//! A refusal: what was wrong, which layer said so, of which coordinate, and where in the input.
ghost use Rattle.std.specs.Prelude.{◌≡◌, ◌≢◌, Some};
ghost use Rattle.base.specs.Faults.{kind_number, layer_number, printed, refusal, shown_fault, stated, told};

use std::error::Error;
use std::fmt;

/// Why a call is refused. `kind_number` in specs/ states the number of each.
#[derive(Clone, Copy, PartialEq, Eq, Debug)]
pub enum Kind {
    /// The prime field does not exist for this q.
    NotPrime = 1,
    /// q, M or s lies outside its range.
    OutOfRange = 2,
    /// A buffer has another length than it should, or a list is empty or no multiple of a record.
    WrongLength = 3,
    /// A record does not keep the layout.
    BadLayout = 4,
    /// A polynomial is not primitive.
    NotPrimitive = 5,
    /// An initial direction number is even or too large.
    BadDirection = 6,
    /// A digit, a numerator or a matrix entry is not allowed.
    BadDigit = 7,
    /// A position, m, low or span lies outside its range.
    OutOfReach = 8,
    /// The parts do not fit together.
    Mismatch = 9,
    /// The run has no table yet.
    EmptyRun = 20,
    /// Every position of the run has been handed out.
    Finished = 21,
    /// No memory was to be had.
    OutOfMemory = 30,
}

/// Which layer refuses. `layer_number` in specs/ states the number of each.
#[derive(Clone, Copy, PartialEq, Eq, Debug)]
pub enum Layer {
    Reader = 1,
    Tables = 2,
    Run = 3,
    Check = 4,
    Travel = 5,
    Making = 6,
}

/// The number that stands for the coordinate of a fault that belongs to none.
pub const NO_COORDINATE: u8 = 255;

/// A refusal.
#[derive(Clone, Copy, PartialEq, Eq, Debug)]
pub struct Fault {
    pub kind: Kind,
    pub layer: Layer,
    pub coordinate: Option<u8>,
    pub place: usize,
}

impl Fault {
    /// A fault that belongs to no coordinate and no place.
    pub fn of(kind: Kind, layer: Layer) -> Fault
        ensures { stated result ≡ refusal (kind_number kind) (layer_number layer) 255 0 }
    {
        Fault::at(kind, layer, 0)
    }

    /// A fault that belongs to a place and to no coordinate.
    pub fn at(kind: Kind, layer: Layer, place: usize) -> Fault
        ensures { stated result ≡ refusal (kind_number kind) (layer_number layer) 255 place }
    {
        Fault {
            kind,
            layer,
            coordinate: None,
            place,
        }
    }
}

/// The stated numbers of a refusal: its cause, layer, coordinate and place.
#[derive(Clone, Copy, PartialEq, Eq, Debug)]
pub struct Numbers(pub u8, pub u8, pub u8, pub usize);

impl From<Fault> for Numbers {
    ghost from_gives = { λ fault numbers. (told numbers ≡ printed fault) × (fault.coordinate ≢ Some 255 → told numbers ≡ stated fault) };

    fn from(fault: Fault) -> Numbers {
        Numbers(
            fault.kind.number(),
            fault.layer.number(),
            fault.coordinate.unwrap_or(NO_COORDINATE),
            fault.place,
        )
    }
}

impl Kind {
    // The variants carry their numbers, so `as` is the conversion; a `From` beside the method would only say it twice.
    /// The stated number of this cause.
    pub fn number(self) -> u8
        ensures { result ≡ kind_number self }
    {
        self as u8
    }
}

impl Layer {
    // As for `Kind`: the variants carry their numbers.
    /// The stated number of this layer.
    pub fn number(self) -> u8
        ensures { result ≡ layer_number self }
    {
        self as u8
    }
}

impl fmt::Display for Fault {
    ghost output = { λ f. Some (shown_fault f) };

    fn fmt<W: fmt::Write>(&self, f: &mut fmt::Formatter<W>) -> fmt::Result {
        let Numbers(number, layer, coordinate, place) = Numbers::from(*self);
        write!(f, "refused {number} {layer} {coordinate} {place}")
    }
}

impl Error for Fault {}
