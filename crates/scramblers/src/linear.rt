//! Linear scrambling: a triangular matrix for each coordinate, over any field.
ghost use Rattle.std.specs.Prelude.{◌≡◌, ℕ, ◌*◌, ◌<◌, ◌≤◌, false, length, MatchOption, slice_index};
ghost use Rattle.base.specs.Fields.{sum_over};
ghost use Rattle.base.specs.Tests.{Gives};
ghost use Rattle.scramblers.specs.Linear.{misplaced, place_tests};
ghost use Rattle.scramblers.specs.Matrices.{AllPlaced, FirstMisplaced};

use crate::scrambler::Scrambler;
use crate::words::scrambles;
use base::digits::padded;
use base::faults::{Fault, Kind, Layer};
use base::limits::Shape;
use fields::field::Field;

/// The scrambler that multiplies each word by its coordinate's matrix, with no 0 on the diagonal and only 0 above it.
#[derive(Drop)]
pub struct LinearScrambler<F: Field> {
    field: F,
    shape: Shape,
    // The matrices as the bytes come, one after the other and row by row, so that one copy keeps them; the rest is 0.
    // An array, since nothing here may ask for heap memory.
    matrices: [u8; 8192],
    ghost same_q: { (F.Field.means field).q ≡ shape.q },
    ghost placed: { (i : ℕ) → i < shape.coordinates * (shape.digits * shape.digits)
        → misplaced shape.q shape.digits i (slice_index matrices i) ≡ false },
}

// Whether a byte may not stand at a place of the matrices of a shape.
fn is_misplaced(shape: &Shape, place: usize, byte: u8) -> bool
    ensures { result ≡ misplaced shape.now.q shape.now.digits place byte }
{
    let digits = usize::from(shape.digits);
    let row = place / digits % digits;
    let column = place % digits;
    byte >= shape.q || (row == column && byte == 0) || (row < column && byte != 0)
}

// The first byte that may not stand where it stands; none where all may.
fn first_misplaced(shape: &Shape, bytes: &[u8]) -> Option<usize>
    ensures { MatchOption result (AllPlaced shape.now.q shape.now.digits bytes.now)
        (FirstMisplaced shape.now.q shape.now.digits bytes.now) }
{
    bytes
        .iter()
        .enumerate()
        .position(|(place, byte)| is_misplaced(shape, place, *byte))
}

// Refuses bytes of which one may not stand where it stands: the place is the index of the first.
// As base's `check_digits`: what one function could share is the match, two lines for two.
#[tactic(auto, using(crate::proofs::Placing::places_refused, crate::proofs::Placing::places_clean))]
fn check_placed(shape: &Shape, bytes: &[u8]) -> Result<(), Fault>
    ensures { Gives (place_tests shape.now.q shape.now.digits bytes.now) result
        (λ _. AllPlaced shape.now.q shape.now.digits bytes.now) }
{
    match first_misplaced(shape, bytes) {
        Some(place) => Err(Fault::at(Kind::BadDigit, Layer::Making, place)),
        None => Ok(()),
    }
}

// The sum of the products of a row's entries with the first digits of a word.
fn row_sum<F: Field>(field: &F, row: &[u8], word: &[u8]) -> u8
    requires { length row.now ≤ length word.now }
    ensures { result ≡ sum_over (F.Field.means field.now) (length row.now)
        (λ i. (F.Field.means field.now).product (slice_index row.now i) (slice_index word.now i)) }
{
    let mut sum = 0;
    // The word is read by place: by a `zip` a step under this scrambler takes a quarter more time.
    for (i, entry) in row.iter().enumerate() {
        sum = field.add(sum, field.mul(*entry, word[i]));
    }
    sum
}

impl<F: Field + Drop> LinearScrambler<F> {
    ghost use Rattle.base.specs.Digits.{BeginsWith};
    ghost use Rattle.base.specs.Shapes.{HasShape};
    ghost use Rattle.scramblers.specs.Linear.{linear_tests};

    /// The scrambler of some matrices over a field: digits x digits bytes for each coordinate, row by row.
    pub fn new(
        field: F,
        digits: u8,
        coordinates: u8,
        bytes: &[u8],
    ) -> Result<LinearScrambler<F>, Fault>
        ensures { Gives (linear_tests (F.Field.means field).q digits coordinates bytes.now) result
            (λ x. (x.field ≡ field) × HasShape (F.Field.means field).q digits coordinates x.shape
            × BeginsWith bytes.now x.matrices) }
    {
        let shape = Shape::new(field.q(), digits, coordinates, Layer::Making)?;
        if bytes.len() != usize::from(coordinates) * (usize::from(digits) * usize::from(digits)) {
            return Err(Fault::of(Kind::WrongLength, Layer::Making));
        }
        check_placed(&shape, bytes)?;
        Ok(LinearScrambler {
            field,
            shape,
            matrices: padded(bytes, 0),
        })
    }
}

impl<F: Field> Scrambler for LinearScrambler<F> {
    ghost use Rattle.scramblers.specs.Linear.{linear_scrambler};
    ghost use Rattle.scramblers.specs.MatrixProducts.{linear_keeps_laws};

    ghost means = { λ x.
        linear_scrambler (F.Field.means x.field) x.shape.q x.shape.digits x.shape.coordinates x.matrices };

    ghost keeps = { λ x.
        linear_keeps_laws (F.Field.means x.field) (F.Field.keeps x.field) x.shape.q x.shape.digits
        x.shape.coordinates x.matrices (x.shape.base, x.shape.width, x.shape.dimension) x.placed };

    fn q(&self) -> u8 {
        self.shape.q
    }

    fn digits(&self) -> u8 {
        self.shape.digits
    }

    fn coordinates(&self) -> u8 {
        self.shape.coordinates
    }

    fn scramble(&self, coordinate: u8, word: &mut [u8]) {
        if !scrambles(&self.shape, coordinate, word) {
            return;
        }
        let digits = usize::from(self.shape.digits);
        let matrix = usize::from(coordinate) * digits;
        // From the last row up, so that each row still finds the digits before it as they were read. By index, since a row's
        // sum reads the word that an iterator would hold.
        for row in (0..digits).rev() {
            let start = (matrix + row) * digits;
            // Past the diagonal a row is 0.
            let digit = row_sum(&self.field, &self.matrices[start..start + row + 1], word);
            word[row] = digit;
        }
    }
}
