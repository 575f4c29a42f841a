//! Telling the words that a scrambler of a shape scrambles.
ghost use Rattle.std.specs.Prelude.{◌<◌, ◌↔◌, IsTrue};
ghost use Rattle.base.specs.Scramblers.{Word};

use base::limits::Shape;

// Whether a scrambler of a shape has a say in a word of a coordinate.
pub(crate) fn scrambles(shape: &Shape, coordinate: u8, word: &[u8]) -> bool
    ensures { IsTrue result
        ↔ ((coordinate < shape.now.coordinates) × Word shape.now.q shape.now.digits word.now) }
{
    coordinate < shape.coordinates
        && word.len() == usize::from(shape.digits)
        && word.iter().all(|digit| *digit < shape.q)
}
