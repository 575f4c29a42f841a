//! The splits of a number over coordinates, one after the other.
ghost use Rattle.std.specs.Prelude.{◌≡◌, ℕ, ◌<◌, ◌≤◌, ◌⊎◌, List, None, length, take, IfSome, MatchOption, slice_index};
ghost use Rattle.std.specs.Option.{SomeIff};
ghost use Rattle.base.specs.Nets.{Split, total};

/// The split at hand: a count for each of up to eight coordinates, together `sum`.
///
/// It is no `Iterator`: the split at hand lends its counts, which an item of an iterator could not.
#[derive(Clone, Copy, Debug, PartialEq, Eq)]
pub struct Splits {
    coordinates: u8,
    sum: u8,
    // No split asks for memory: the counts past the coordinates are spare.
    counts: [u8; 8],
    ghost some: { 1 ≤ coordinates },
    ghost few: { coordinates ≤ 8 },
    ghost whole: { total (take coordinates counts) ≡ sum },
}

impl Splits {
    ghost use Rattle.base.specs.Splits.{Before, NoneAfter, counts_of, left};

    /// The first split of a number: all of it in the last coordinate. None where there are not one to eight coordinates.
    pub fn first(coordinates: u8, sum: u8) -> Option<Splits>
        ensures { MatchOption result ((1 ≤ coordinates) × (coordinates ≤ 8) → ⊥) (λ x. (x.coordinates ≡ coordinates) × (x.sum ≡ sum) × Split coordinates sum (counts_of x) × ((other : List ℕ) → Split coordinates sum other → Before other (counts_of x) → ⊥)) }
    {
        if !(1..=8).contains(&coordinates) {
            return None;
        }
        let mut counts = [0u8; 8];
        counts[coordinates as usize - 1] = sum;
        Some(Splits {
            coordinates,
            sum,
            counts,
        })
    }

    /// The count of a coordinate; none where there is no such coordinate.
    pub fn count(&self, coordinate: u8) -> Option<u8>
        ensures { SomeIff result (coordinate < self.now.coordinates) (slice_index (counts_of self.now) coordinate) }
    {
        self.counts().get(coordinate as usize).copied()
    }

    /// The counts, one for each coordinate.
    pub fn counts(&self) -> &[u8]
        ensures value { result.now ≡ counts_of self.now }
        ensures size { length result.now ≡ self.now.coordinates }
    {
        &self.counts[..self.coordinates as usize]
    }

    // The last coordinate above the first that gives something.
    fn last_giver(&self) -> Option<usize>
        ensures none { result ≡ None → (k : ℕ) → 0 < k → k < self.now.coordinates → slice_index self.now.counts k ≡ 0 }
        ensures found { IfSome result (λ place. (0 < place) × (place < self.now.coordinates) × (0 < slice_index self.now.counts place)) }
        ensures last { IfSome result (λ place. (k : ℕ) → place < k → k < self.now.coordinates → slice_index self.now.counts k ≡ 0) }
    {
        self.counts()
            .iter()
            .rposition(|count| *count > 0)
            .filter(|place| *place > 0)
    }

    /// The next split of the same number; none at the last one.
    pub fn next(&self) -> Option<Splits>
        ensures same { IfSome result (λ x. (x.coordinates ≡ self.now.coordinates) × (x.sum ≡ self.now.sum)) }
        ensures last { result ≡ None → NoneAfter self.now.coordinates self.now.sum (counts_of self.now) }
        ensures after { IfSome result (λ x. Before (counts_of self.now) (counts_of x)) }
        ensures none_between { IfSome result (λ x. (other : List ℕ) → Split self.now.coordinates self.now.sum other → Before other (counts_of x) → Before other (counts_of self.now) ⊎ (other ≡ counts_of self.now)) }
        ensures falls { IfSome result (λ x. left self.now.sum (counts_of x) < left self.now.sum (counts_of self.now)) }
    {
        let place = self.last_giver()?;
        // One goes to the coordinate before; what is left goes to the last.
        let given = self.counts[place] - 1;
        let last = self.coordinates as usize - 1;
        let mut counts = self.counts;
        counts[place] = 0;
        counts[last] = given;
        counts[place - 1] += 1;
        Some(Splits {
            coordinates: self.coordinates,
            sum: self.sum,
            counts,
        })
    }
}
