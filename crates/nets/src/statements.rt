//! The statements about orders, scramblers, systems of equations and blocks, for every one that keeps its laws.
ghost use Rattle.nets.specs.Blocks.{OrdersPermuteBlocks};
ghost use Rattle.nets.specs.Leading.{ScramblersPermuteCells};
ghost use Rattle.nets.specs.Rows.{SolutionsOfRows};
ghost use Rattle.nets.specs.Theorem.{BlockIsNetExactlyWhenSplitsPass, LeastTIsTheFirstThatPasses};
ghost use Rattle.nets.specs.Zero.{FaureTablesHaveTZero, SingleSobolTablesHaveTZero, SobolTablesFollowPolynomials};

/// In every lawful order, while the position runs over a block, its index runs over exactly one block of indexes.
pub fn orders_permute_blocks()
    ensures { OrdersPermuteBlocks }
{}

/// In every lawful scrambler, on each number of leading digits, scrambling is a bijection.
pub fn scramblers_permute_cells()
    ensures { ScramblersPermuteCells }
{}

/// Over every field, independent rows have the same number of solutions for every right side; dependent ones have none for some.
pub fn solutions_of_independent_rows()
    ensures { SolutionsOfRows }
{}

/// The points of a block form a (t, m, s)-net exactly if every split of m - t passes.
pub fn block_is_net_exactly_when_splits_pass()
    ensures { BlockIsNetExactlyWhenSplitsPass }
{}

/// The least t of a block is the first whose splits all pass; it exists, and is the same for every block, order and scrambler.
pub fn least_t_is_the_first_that_passes()
    ensures { LeastTIsTheFirstThatPasses }
{}

/// Every split of every Faure table passes, so every block of its points is a net for t = 0.
pub fn faure_tables_have_t_zero()
    ensures { FaureTablesHaveTZero }
{}

/// Every split of a Sobol' table of one coordinate passes, so every block of its points is a net for t = 0.
pub fn single_sobol_tables_have_t_zero()
    ensures { SingleSobolTablesHaveTZero }
{}

/// The digits of every coordinate of a Sobol' table are 1 on the diagonal and 0 below it, and follow its polynomial's recurrence.
pub fn sobol_tables_follow_their_polynomials()
    ensures { SobolTablesFollowPolynomials }
{}
