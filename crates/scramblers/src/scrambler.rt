//! The interface of scramblers.
ghost use Rattle.std.specs.Prelude.{◌≡◌};
ghost use Rattle.base.specs.Scramblers.{ScramblerLaws, ScramblerModel};

/// A scrambler: it turns the word of a coordinate into another, digit prefix by digit prefix.
///
/// Its meaning is one value, and every answer comes from it. The laws leave no room for a scrambler of zeros:
/// two words with equal results are equal.
pub trait Scrambler {
    ghost means: { Self → ScramblerModel };

    // Each scrambler answers these itself: defaults over one method for all would ask more of whoever writes a scrambler.

    /// The number of different digits.
    fn q(&self) -> u8
        ensures { result ≡ (means self.now).q };

    /// The number of digits of a word.
    fn digits(&self) -> u8
        ensures { result ≡ (means self.now).digits };

    /// The number of coordinates.
    fn coordinates(&self) -> u8
        ensures { result ≡ (means self.now).coordinates };

    /// Scrambles a word of a coordinate in place.
    /// A word of another length or with a digit of q or more, or of another coordinate, stays as it is.
    fn scramble(&self, coordinate: u8, word: &mut [u8])
        ensures { word.new ≡ (means self.now).scramble coordinate word.old };

    ghost keeps: { (x : Self) → ScramblerLaws (means x) };
}
