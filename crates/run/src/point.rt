//! The numerators of a point, from the present digits.
ghost use Rattle.std.specs.Prelude.{◌≡◌, ℕ, ◌<◌, ◌≤◌, length, take, slice_index};
ghost use Rattle.base.specs.Points.{numerator};
ghost use Rattle.tables.specs.Table.{model};
ghost use Rattle.run.specs.Written.{Readable, Writes};

use crate::coordinate::Coordinate;
use base::digits::number_of;
use scramblers::scrambler::Scrambler;
use tables::table::Table;

// The numerator of a word of a coordinate, which is scrambled for it.
fn scrambled<S: Scrambler>(scrambler: &S, j: u8, word: &mut [u8], q: u8) -> u32
    ensures { Readable q ((S.Scrambler.means scrambler.now).scramble j word.old) → result ≡ numerator q ((S.Scrambler.means scrambler.now).scramble j word.old) }
{
    scrambler.scramble(j, word);
    number_of(word, q)
}

// The numerator of a coordinate, from its first present digits.
fn coordinate_numerator<S: Scrambler>(
    scrambler: &S,
    table: &Table,
    j: u8,
    coordinate: &Coordinate,
) -> u32
    ensures size { length coordinate.now.digits ≡ 32 }
    ensures value { Readable (model table.now).q ((S.Scrambler.means scrambler.now).scramble j (take (model table.now).digits coordinate.now.digits)) → result ≡ numerator (model table.now).q ((S.Scrambler.means scrambler.now).scramble j (take (model table.now).digits coordinate.now.digits)) }
{
    let mut word = coordinate.digits;
    scrambled(
        scrambler,
        j,
        &mut word[..table.digits() as usize],
        table.q(),
    )
}

/// Writes the numerators of the point that the coordinates show.
pub(crate) fn write_point<S: Scrambler>(
    scrambler: &S,
    table: &Table,
    coordinates: &[Coordinate; 8],
    out: &mut [u32],
)
    requires { length out.old ≤ 8 }
    ensures size { length out.new ≡ length out.old }
    ensures numerators { (j : ℕ) → j < length out.old → Writes (S.Scrambler.means scrambler.now) (model table.now).q (model table.now).digits coordinates.now j (slice_index out.new j) }
{
    // j is the coordinate that the scrambler is asked about, and not only a place.
    for (j, x) in out.iter_mut().enumerate() {
        *x = coordinate_numerator(scrambler, table, j as u8, &coordinates[j]);
    }
}
